// How a piece of a report is put: how far its lines have come, how many of them count, and the last line; and the one
// line of a refused file.
#![tactic(auto)]

ghost use Rattle.std.specs.Prelude.{◌&&◌, cond, ◌≡◌, ◌+◌, ◌≤◌, ◌<◌, eqb, ltb, length};
ghost use Rattle.report.specs.Lines.{longest_refusal};
ghost use Rattle.report_pieces.specs.Pieces.{roomy, refusal_piece, Wrote, LastPut};

use file_format::Refusal;
use report::lines::{put_end, put_refusal};

// No line of a report is longer: a buffer has to be as long, and a line is put where so many bytes are left.
pub const LONGEST: usize = 34829;

// A piece that was put: where to go on, how many centres before that one have a place, and how many bytes the piece
// has.
#[derive(Clone, Copy)]
pub struct PutPiece {
    pub next: usize,
    pub found: usize,
    pub size: usize,
}

// Whether there is room for the longest line after `at` bytes.
fn roomy(at: usize, room: usize) -> bool
    requires { at ≤ room }
    ensures { result ≡ roomy room at }
{
    LONGEST <= room - at
}

// Whether the line of the centre c is to be put: it is one of the n, and there is room.
pub fn goes_on(c: usize, n: usize, at: usize, room: usize) -> bool
    requires { at ≤ room }
    ensures { result ≡ (ltb c n && roomy room at) }
{
    if n <= c {
        return false;
    }
    roomy(at, room)
}

// One more, where something was put.
pub fn count_put(count: usize, at: usize, next: usize) -> usize
    requires { count < 100000 }
    ensures { result ≡ count + cond (eqb next at) 0 1 }
{
    if next == at {
        return count;
    }
    count + 1
}

// The last line after a part that has come to the centre n, where there is room for it.
pub fn put_last(part: PutPiece, n: usize, out: &mut [u8]) -> PutPiece
    requires { (part.size ≤ length out.old) × (part.found < 100000) × (n < 1000) }
    ensures { LastPut out.old part n out.new result }
{
    if part.next != n {
        return part;
    }
    let at = part.size;
    if !roomy(at, out.len()) {
        return part;
    }
    let end = put_end(part.found, n, out, at);
    PutPiece {
        next: n + 1,
        found: part.found,
        size: end,
    }
}

// Nothing: the report is at its end.
pub fn put_nothing(from: usize, found: u16) -> PutPiece
    ensures { result ≡ record { next = from; found = found; size = 0 } }
{
    PutPiece {
        next: from,
        found: found as usize,
        size: 0,
    }
}

// The line of a refused file, which is the whole report.
pub fn put_refused(x: Refusal, from: usize, found: u16, out: &mut [u8]) -> PutPiece
    requires { longest_refusal ≤ length out.old }
    ensures { Wrote out.old (refusal_piece x from found) out.new result }
{
    if from != 0 {
        return put_nothing(from, found);
    }
    let size = put_refusal(x, out, 0);
    PutPiece {
        next: 1,
        found: found as usize,
        size,
    }
}
