// The report of two files that were opened, handed to standard output piece by piece.
#![tactic(auto)]

ghost use Rattle.std.specs.Prelude.{cond, ◌≡◌, ◌≤◌, length};
ghost use Rattle.file_format.specs.Layout.{first_edition};
ghost use Rattle.table.specs.Prepared.{tables};
ghost use Rattle.report.specs.Lines.{longest_line};
ghost use Rattle.call_open.specs.Opened.{Opened};
ghost use Rattle.finder_pieces.specs.Handed.{GoesOn, ReportHanded};

use call_piece::put;
use file_format::Refusal;
use file_pair::Pair;

// Hands the bytes that come next to standard output: those of the report's items after the ones that were handed over
// up to another, and notes how far that is. (An item is a line for each centre, which may be empty, or the last line.)
// The answer says whether they were taken; where they were not, nothing is handed over any more.
fn hand(
    rt: &HostRuntime,
    failure: &mut i32,
    pattern: &[u8],
    board: &[u8],
    handed: &mut usize,
    next: usize,
    bytes: &[u8],
) -> bool
    requires { let p = first_edition pattern.now in let b = first_edition board.now in GoesOn p b handed.old next bytes.now }
    ensures { handed.new ≡ cond result next handed.old }
{
    if output::write_whole(rt, failure, bytes).is_none() {
        return false;
    }
    *handed = next;
    true
}

// Prints the report of two files that were opened piece by piece, by way of the buffer, until nothing is left of it or
// a write fails. The answer says whether all of it was handed over.
pub fn print_pieces(
    rt: &HostRuntime,
    failure: &mut i32,
    pattern: &[u8],
    board: &[u8],
    read: Result<Pair, Refusal>,
    masks: &[u32],
    offsets: &[u16],
    targets: &[u16],
    whole: &[u32],
    component_of: &[u16],
    sizes: &[u16],
    out: &mut [u8],
    handed: &mut usize,
) -> bool
    requires opened { let p = first_edition pattern.now in let b = first_edition board.now in let t = tables masks.now offsets.now targets.now in Opened 0 p b read t whole.now component_of.now sizes.now }
    requires longest_line_in_bounds { (longest_line ≤ length out.old) × (handed.old ≡ 0) }
    ensures { let p = first_edition pattern.now in let b = first_edition board.now in ReportHanded p b handed.new result }
{
    let mut found: u16 = 0;
    // A loop: how many pieces there are shows only as they are put.
    loop {
        let from = *handed;
        let answer = put(
            read,
            masks,
            offsets,
            targets,
            whole,
            component_of,
            sizes,
            from,
            found,
            out,
        );
        let Ok(part) = answer else {
            return false;
        };
        let size = part.size;
        if size == 0 {
            return true;
        }
        let next = part.next;
        if !hand(rt, failure, pattern, board, handed, next, &out[..size]) {
            return false;
        }
        found = part.found as u16;
    }
}
