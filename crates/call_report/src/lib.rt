// The report call: the report of a pattern file on a board file, put piece by piece into a lent buffer.
#![tactic(auto)]

ghost use Rattle.std.specs.Prelude.{◌≡◌};
ghost use Rattle.file_format.specs.Layout.{in_edition};
ghost use Rattle.report_answer.specs.Call.{report_reply, reporting};

use call_open::open;
use call_piece::put;
use file_format::{Board, Editions, Refusal};
use graph_neighbours::tables::{OFFSETS, TARGETS};
use report_pieces::PutPiece;
use table::MASKS;

// A piece of the report, from the centre `from` on, before which `found` centres had a place, at the front of the
// buffer: the lines of as many centres as there is room for, and the last line where the centres are done; the first
// piece is from 0 with 0 found. Nothing is put exactly when the report is at its end. A buffer that is too short, for
// the line of a refused file or for the longest line, is refused and left as it was.
pub fn report(
    editions: Editions,
    pattern: &[u8],
    board: &[u8],
    from: usize,
    found: u16,
    out: &mut [u8],
) -> Result<PutPiece, Refusal>
    ensures { record { reply = report_reply result; out = out.new }
        ≡ reporting (in_edition editions.pattern pattern.now)
        (in_edition editions.board board.now)
        from found out.old }
{
    let mut masks = [0u32; MASKS];
    let mut offsets = [0u16; OFFSETS];
    let mut targets = [0u16; TARGETS];
    let mut whole = [0u32; Board::MAX_NODES];
    let mut component_of = [0u16; Board::MAX_NODES];
    let mut sizes = [0u16; Board::MAX_NODES];
    let read = open(
        from,
        editions,
        pattern,
        board,
        &mut masks,
        &mut offsets,
        &mut targets,
        &mut whole,
        &mut component_of,
        &mut sizes,
    );
    put(
        read,
        &masks,
        &offsets,
        &targets,
        &whole,
        &component_of,
        &sizes,
        from,
        found,
        out,
    )
}
