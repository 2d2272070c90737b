// The report program: reads `pattern.cir` and `board.cir` in the folder it is run in, an absent file as an empty one,
// and prints the report. Standard output has the report's lines and nothing else. Where a file is there and cannot be
// read, or the report cannot be written whole, a line on standard error says so; what was printed is then a front of
// the report.
#![tactic(auto)]

ghost use Rattle.std.specs.Prelude.{◌≡◌, ◌≤◌, length, IfSome};
ghost use Rattle.input.specs.Reading.{IsPrefixLen};
ghost use Rattle.report.specs.Lines.{longest_line};
ghost use Rattle.finder.specs.Run.{report_end, ReportRan};

use finder_print::print_report;
use finder_read::{BOARD_BYTES, Files, PATTERN_BYTES, read_files};

// What is put at a time; a longer report takes further pieces.
const PIECE_BYTES: usize = 524288;

// Why the report was not handed whole to standard output: a write failed; or a file cannot be read.
#[derive(Clone, Copy, Debug, PartialEq, Eq)]
enum ReportError {
    Broken,
    NoPattern,
    NoBoard,
}

// What the program read, and how it ended.
#[derive(Clone, Copy)]
struct Run {
    files: Files,
    end: Result<(), ReportError>,
}

// How a run ends in which the report was begun.
#[tactic(auto, unfolding(crate::specs::Run::report_end))]
fn ended(whole: bool) -> Result<(), ReportError>
    ensures { result ≡ report_end whole }
{
    if whole {
        return Ok(());
    }
    Err(ReportError::Broken)
}

// Prints the report of what is held of the two files, where both could be read.
#[tactic(auto, unfolding(crate::specs::Run::ReportRan))]
fn report_held(
    rt: &HostRuntime,
    failure: &mut i32,
    files: Files,
    pattern: &[u8],
    board: &[u8],
    out: &mut [u8],
    handed: &mut usize,
) -> Result<(), ReportError>
    requires pattern_held { IfSome files.pattern (λ size. IsPrefixLen size pattern.now) }
    requires board_held { IfSome files.board (λ size. IsPrefixLen size board.now) }
    requires longest_line_in_bounds { (longest_line ≤ length out.old) × (handed.old ≡ 0) }
    ensures { ReportRan pattern.now board.now handed.new files result }
{
    let Some(parts) = files.pattern else {
        return Err(ReportError::NoPattern);
    };
    let Some(nodes) = files.board else {
        return Err(ReportError::NoBoard);
    };
    ended(print_report(rt, failure, &pattern[..parts], &board[..nodes], out, handed))
}

// Reads the two files and prints their report, by way of buffers that are lent as arrays: so their lengths are known by
// their types, and no proof counts their bytes.
fn report_files(
    rt: &HostRuntime,
    failure: &mut i32,
    pattern: &mut [u8; PATTERN_BYTES],
    board: &mut [u8; BOARD_BYTES],
    out: &mut [u8; PIECE_BYTES],
    handed: &mut usize,
) -> Run
    requires { handed.old ≡ 0 }
    ensures { ReportRan pattern.new board.new handed.new result.files result.end }
{
    let files = read_files(rt, pattern, board);
    let end = report_held(
        rt,
        failure,
        files,
        &pattern[..],
        &board[..],
        &mut out[..],
        handed,
    );
    Run { files, end }
}

// Tells on standard error why the report is not whole.
fn tell(rt: &HostRuntime, error: ReportError, failure: i32) {
    match error {
        ReportError::Broken => output::fail(rt, "the report is not whole", failure),
        ReportError::NoPattern => input::cannot_read(rt, "pattern.cir"),
        ReportError::NoBoard => input::cannot_read(rt, "board.cir"),
    }
}

fn usage(rt: &HostRuntime) {
    output::tell(
        rt,
        "finder takes no argument: it reports on pattern.cir and board.cir in the folder that it is run in",
    );
}

fn main(rt: HostRuntime) {
    if input::is_told(input::arg_count(&rt)) {
        usage(&rt);
        return;
    }
    let mut pattern = [0u8; PATTERN_BYTES];
    let mut board = [0u8; BOARD_BYTES];
    let mut out = [0u8; PIECE_BYTES];
    let mut handed: usize = 0;
    let mut failure: i32 = 0;
    let run = report_files(
        &rt,
        &mut failure,
        &mut pattern,
        &mut board,
        &mut out,
        &mut handed,
    );
    if let Err(error) = run.end {
        tell(&rt, error, failure);
    }
}
