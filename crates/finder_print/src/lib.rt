// The report of two files, printed: they are opened once, and all pieces are put from what that leaves.
#![tactic(auto)]

ghost use Rattle.std.specs.Prelude.{◌≡◌, ◌≤◌, length};
ghost use Rattle.file_format.specs.Layout.{first_edition};
ghost use Rattle.report.specs.Lines.{longest_line};
ghost use Rattle.finder_pieces.specs.Handed.{ReportHanded};

use call_open::open;
use file_format::{Board, Edition, Editions};
use finder_pieces::print_pieces;
use graph_neighbours::tables::{OFFSETS, TARGETS};
use table::MASKS;

// Opens the two files, of the first edition both, and prints their report.
pub fn print_report(
    rt: &HostRuntime,
    failure: &mut i32,
    pattern: &[u8],
    board: &[u8],
    out: &mut [u8],
    handed: &mut usize,
) -> bool
    requires { (longest_line ≤ length out.old) × (handed.old ≡ 0) }
    ensures { let p = first_edition pattern.now in let b = first_edition board.now in ReportHanded p b handed.new result }
{
    let mut masks = [0u32; MASKS];
    let mut offsets = [0u16; OFFSETS];
    let mut targets = [0u16; TARGETS];
    let mut whole = [0u32; Board::MAX_NODES];
    let mut component_of = [0u16; Board::MAX_NODES];
    let mut sizes = [0u16; Board::MAX_NODES];
    let editions = Editions {
        pattern: Edition::First,
        board: Edition::First,
    };
    let read = open(
        0,
        editions,
        pattern,
        board,
        &mut masks,
        &mut offsets,
        &mut targets,
        &mut whole,
        &mut component_of,
        &mut sizes,
    );
    print_pieces(
        rt,
        failure,
        pattern,
        board,
        read,
        &masks,
        &offsets,
        &targets,
        &whole,
        &component_of,
        &sizes,
        out,
        handed,
    )
}
