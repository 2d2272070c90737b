// The shelf program: reads `p00.cir` to `p15.cir` in the folder it is run in, second-edition pattern files, up to the
// first that is absent, and prints the numbers of those that are accepted in the order of their circuits. Standard
// output has these lines and nothing else. Where a file is there and cannot be read, nothing is printed, and a line on
// standard error says so; so it does where the lines cannot be written whole, and what was printed is then a front of
// them.
#![tactic(auto)]

ghost use Rattle.std.specs.Prelude.{Ok, cond, ◌≡◌, ◌*◌, ◌≤◌, length};
ghost use Rattle.call_shelf.specs.Shelf.{most_files};
ghost use Rattle.shelf.specs.Printing.{printed_of, ShelfHanded, shelf_ended, ShelfRan};
ghost use Rattle.shelf_files.specs.Reading.{most_bytes, shelf_end};

use call_shelf::FILES;
use shelf_files::{SHELF_BYTES, UnreadableFile, cannot_read, read_all};

// Why the lines were not handed whole to standard output: a write failed, after so many files were read; or the file of
// this number cannot be read.
#[derive(Clone, Copy, Debug, PartialEq, Eq)]
enum ShelfError {
    Broken(usize),
    NoFile(usize),
}

// Hands the lines to standard output, which are the text of the files that were read, and notes how many bytes they
// are. The answer says whether they were taken. Nothing was handed over before.
fn hand(
    rt: &HostRuntime,
    failure: &mut i32,
    bytes: &[u8],
    notes: &[u32],
    handed: &mut usize,
    text: &[u8],
) -> bool
    requires { (handed.old ≡ 0) × (text.now ≡ printed_of bytes.now notes.now) }
    ensures { handed.new ≡ cond result (length text.now) 0 }
{
    output::hand(rt, failure, handed, text)
}

// Puts the files in order and hands their lines on, by way of a table for their numbers and a buffer for the lines. The
// answer says whether they were taken whole.
fn print_shelf(
    rt: &HostRuntime,
    failure: &mut i32,
    bytes: &[u8],
    notes: &[u32],
    count: usize,
    order: &mut [u8],
    out: &mut [u8],
    handed: &mut usize,
) -> bool
    requires notes_len { (length notes.now ≡ most_files) × (shelf_end notes.now ≡ Ok count) }
    requires most_files_in_bounds { (most_files ≤ length order.old) × (3 * most_files ≤ length out.old) × (handed.old ≡ 0) }
    ensures { let text = printed_of bytes.now notes.now in ShelfHanded text out.new handed.new result }
{
    let Ok(ordered) = call_shelf::shelf(bytes, &notes[..count], order) else {
        return false;
    };
    let size = call_shelf::lines::put_numbers(&order[..ordered], out);
    hand(rt, failure, bytes, notes, handed, &out[..size])
}

// How a run ends in which so many files were read, and tells where their lines are not whole.
#[tactic(auto, unfolding(crate::specs::Printing::shelf_ended))]
fn ended(rt: &HostRuntime, failure: i32, count: usize, whole: bool) -> Result<usize, ShelfError>
    ensures { result ≡ shelf_ended count whole }
{
    if whole {
        return Ok(count);
    }
    output::fail(rt, "the list is not whole", failure);
    Err(ShelfError::Broken(count))
}

// Reads the shelf and prints its order, by way of tables that are lent whole. The answer is how many files were read;
// what went wrong has been told.
fn shelve(
    rt: &HostRuntime,
    bytes: &mut [u8],
    notes: &mut [u32],
    order: &mut [u8],
    out: &mut [u8],
    handed: &mut usize,
) -> Result<usize, ShelfError>
    requires most_bytes_in_bounds { (most_files * most_bytes ≤ length bytes.old) × (length notes.old ≡ most_files) }
    requires most_files_in_bounds { (most_files ≤ length order.old) × (3 * most_files ≤ length out.old) × (handed.old ≡ 0) }
    ensures { ShelfRan bytes.new notes.new out.new handed.new result }
{
    let taken = read_all(rt, bytes, notes);
    match taken {
        Ok(count) => {
            let mut failure: i32 = 0;
            let whole = print_shelf(rt, &mut failure, bytes, notes, count, order, out, handed);
            ended(rt, failure, count, whole)
        }
        Err(UnreadableFile(i)) => {
            cannot_read(rt, i);
            Err(ShelfError::NoFile(i))
        }
    }
}

fn usage(rt: &HostRuntime) {
    output::tell(
        rt,
        "shelf takes no argument: it orders p00.cir to p15.cir in the folder that it is run in",
    );
}

fn main(rt: HostRuntime) {
    if input::is_told(input::arg_count(&rt)) {
        usage(&rt);
        return;
    }
    let mut bytes = [0u8; SHELF_BYTES];
    let mut notes = [0u32; FILES];
    let mut order = [0u8; FILES];
    let mut out = [0u8; 3 * FILES];
    let mut handed: usize = 0;
    let _ended = shelve(
        &rt,
        &mut bytes,
        &mut notes,
        &mut order,
        &mut out,
        &mut handed,
    );
}
