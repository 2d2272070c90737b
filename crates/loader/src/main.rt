// The program that makes a test board: takes the four numbers as words, seed, N, M and K, and writes the board's file
// to standard output. Where a word is no number, or a number is out of its range, it says so on standard error and
// writes nothing to standard output.
#![tactic(auto)]

ghost use Rattle.std.specs.Prelude.{◌≡◌, ◌≤◌, length};
ghost use Rattle.file_format.specs.declared.Edition.TheVariants as editions;
ghost use Rattle.file_format.specs.Layout.{length_of};
ghost use Rattle.call_test_board.specs.Call.{test_board_bytes};
ghost use Rattle.loader_words.specs.Words.{WordsHeard, asked_by};
ghost use Rattle.loader.specs.Printing.{WriteTried, Handed, TestBoardRan};

use file_format::Board;
use loader_words::{Asked, Told, asked_by, read_words};

// The longest file of a test board.
const BYTES: usize = 4 + 2 * Board::MAX_NODES + 4 * Board::MAX_LINKS;

// Why the test board's file was not handed whole to standard output: that failed; or a number was out of its range; or
// a word was none.
#[derive(Clone, Copy, Debug, PartialEq, Eq)]
enum PrintError {
    OutputFailed,
    OutOfRange,
    NoNumbers,
}

// What the program was told, and what came of it.
#[derive(Clone, Copy)]
struct Run {
    told: Told,
    printed: Result<(), PrintError>,
}

// Hands the file of a test board to standard output, and notes how many bytes it has. Nothing was handed over before.
#[tactic(auto, unfolding(crate::specs::Printing::WriteTried))]
fn hand(
    rt: &HostRuntime,
    failure: &mut i32,
    seed: u32,
    n: u32,
    m: u32,
    k: u32,
    handed: &mut usize,
    bytes: &[u8],
) -> Result<(), PrintError>
    requires { (handed.old ≡ 0) × (bytes.now ≡ test_board_bytes seed n m k) }
    ensures { WriteTried (length bytes.now) handed.new result }
{
    if output::hand(rt, failure, handed, bytes) {
        return Ok(());
    }
    Err(PrintError::OutputFailed)
}

// Makes the test board in a buffer that is long enough for each, and hands it on.
fn print_test_board(
    rt: &HostRuntime,
    failure: &mut i32,
    seed: u32,
    n: u32,
    m: u32,
    k: u32,
    out: &mut [u8],
    handed: &mut usize,
) -> Result<(), PrintError>
    requires { (length_of editions.First 512 4096 ≤ length out.old) × (handed.old ≡ 0) }
    ensures { Handed seed n m k out.new handed.new result }
{
    let Ok(size) = call_test_board::test_board(seed, n, m, k, out) else {
        return Err(PrintError::OutOfRange);
    };
    hand(rt, failure, seed, n, m, k, handed, &out[..size])
}

// The test board that four words ask for.
#[tactic(auto, unfolding(crate::specs::Printing::TestBoardRan, crate::specs::Printing::Given))]
fn print_words(
    rt: &HostRuntime,
    failure: &mut i32,
    words: Asked,
    out: &mut [u8],
    handed: &mut usize,
) -> Result<(), PrintError>
    requires { (length_of editions.First 512 4096 ≤ length out.old) × (handed.old ≡ 0) }
    ensures { TestBoardRan words out.new handed.new result }
{
    let seed = words.seed.ok_or(PrintError::NoNumbers)?;
    let n = words.n.ok_or(PrintError::NoNumbers)?;
    let m = words.m.ok_or(PrintError::NoNumbers)?;
    let k = words.k.ok_or(PrintError::NoNumbers)?;
    print_test_board(rt, failure, seed, n, m, k, out, handed)
}

// Tells on standard error why there is no test board.
fn tell(rt: &HostRuntime, error: PrintError, failure: i32) {
    match error {
        PrintError::OutputFailed => output::fail(rt, "the load is not whole", failure),
        PrintError::OutOfRange => output::tell(
            rt,
            "refused 10: N is from 1 to 512, M at most 4096, K from 1 to 65536",
        ),
        PrintError::NoNumbers => output::tell(
            rt,
            "usage: loader SEED N M K, four numbers below 4294967296",
        ),
    }
}

// The test board that the arguments ask for, by way of buffers that are lent whole.
fn print_asked_for(
    rt: &HostRuntime,
    failure: &mut i32,
    seed: &mut [u8],
    n: &mut [u8],
    m: &mut [u8],
    k: &mut [u8],
    out: &mut [u8],
    handed: &mut usize,
) -> Run
    requires { (length_of editions.First 512 4096 ≤ length out.old) × (handed.old ≡ 0) }
    ensures words_heard { WordsHeard seed.new n.new m.new k.new result.told }
    ensures test_board_ran { TestBoardRan (asked_by result.told) out.new handed.new result.printed }
{
    let told = read_words(rt, seed, n, m, k);
    let words = asked_by(told);
    let printed = print_words(rt, failure, words, out, handed);
    Run { told, printed }
}

fn main(rt: HostRuntime) {
    let mut seed = [0u8; 32];
    let mut n = [0u8; 32];
    let mut m = [0u8; 32];
    let mut k = [0u8; 32];
    let mut out = [0u8; BYTES];
    let mut handed: usize = 0;
    let mut failure: i32 = 0;
    let run = print_asked_for(
        &rt,
        &mut failure,
        &mut seed,
        &mut n,
        &mut m,
        &mut k,
        &mut out,
        &mut handed,
    );
    if let Err(error) = run.printed {
        tell(&rt, error, failure);
    }
}
