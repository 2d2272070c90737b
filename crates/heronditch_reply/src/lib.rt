// Replies as a host program sees them: structs of numbers, in place of the results.
#![tactic(auto)]

ghost use Rattle.std.specs.Prelude.{◌≡◌, []};
ghost use Rattle.file_format.specs.Reply.{reply, verdict_of, read_reply, number_reply};
ghost use Rattle.heronditch_reply.specs.Replies.{file_number, slots, counted_as, host_neighbours};

use base_lists::copy;
use file_format::{File, Refusal, Size, TOO_SHORT};
use table::Counts;

// Number 0 for acceptance or the refusal's number; the file that it means (0 neither, 1 pattern, 2 board); the values
// replied with.
#[repr(C)]
#[derive(Clone, Copy)]
pub struct HostReply {
    pub number: u32,
    pub file: u32,
    pub first: usize,
    pub second: usize,
}

// The same with the four counts.
#[repr(C)]
#[derive(Clone, Copy)]
pub struct Counted {
    pub number: u32,
    pub file: u32,
    pub started: u32,
    pub kept: u32,
    pub struck: u32,
    pub rounds: u32,
}

// The same with where the report goes on after a piece, how many centres before that have a place, and how many bytes
// were put.
#[repr(C)]
#[derive(Clone, Copy)]
pub struct Piece {
    pub number: u32,
    pub file: u32,
    pub next: usize,
    pub found: usize,
    pub size: usize,
}

// The number that stands for a file. (A function and no `From`: neither `File` nor `u32` is this crate's.)
fn file_number(file: File) -> u32
    ensures { result ≡ file_number file }
{
    match file {
        File::Neither => 0,
        File::Pattern => 1,
        File::Board => 2,
    }
}

pub fn accepted(first: usize, second: usize) -> HostReply
    ensures { result ≡ record { number = 0; file = 0; first = first; second = second } }
{
    HostReply {
        number: 0,
        file: 0,
        first,
        second,
    }
}

pub fn refused(x: Refusal) -> HostReply
    ensures { result ≡ record { number = x.number; file = file_number x.file; first = 0; second = 0 } }
{
    let file = x.file;
    HostReply {
        number: x.number as u32,
        file: file_number(file),
        first: 0,
        second: 0,
    }
}

// An answer without values.
pub fn of_verdict(answer: Result<(), Refusal>) -> HostReply
    ensures { result ≡ slots (reply (verdict_of answer) []) }
{
    match answer {
        Ok(()) => accepted(0, 0),
        Err(x) => refused(x),
    }
}

// An answer with one number.
pub fn of_number(answer: Result<usize, Refusal>) -> HostReply
    ensures { result ≡ slots (number_reply answer) }
{
    match answer {
        Ok(number) => accepted(number, 0),
        Err(x) => refused(x),
    }
}

// What reading a file comes to.
pub fn of_read(answer: Result<Size, Refusal>) -> HostReply
    ensures { result ≡ slots (read_reply answer) }
{
    match answer {
        Ok(size) => accepted(size.nodes, size.links),
        Err(x) => refused(x),
    }
}

// Four counts, with a number and a file.
pub fn with_counts(number: u32, file: u32, k: Counts) -> Counted
    ensures { result ≡ counted_as number file k }
{
    Counted {
        number,
        file,
        started: k.started,
        kept: k.kept,
        struck: k.struck,
        rounds: k.rounds,
    }
}

// A refusal with counts, as number 9 has them.
pub fn refused_with(x: Refusal, k: Counts) -> Counted
    ensures { result ≡ counted_as x.number (file_number x.file) k }
{
    let file = x.file;
    with_counts(x.number as u32, file_number(file), k)
}

// A piece that was put.
pub fn put_piece(next: usize, found: usize, size: usize) -> Piece
    ensures { result ≡ record { number = 0; file = 0; next = next; found = found; size = size } }
{
    Piece {
        number: 0,
        file: 0,
        next,
        found,
        size,
    }
}

// A piece that was refused.
pub fn refused_piece(x: Refusal) -> Piece
    ensures { result ≡ record { number = x.number; file = file_number x.file; next = 0; found = 0; size = 0 } }
{
    let file = x.file;
    Piece {
        number: x.number as u32,
        file: file_number(file),
        next: 0,
        found: 0,
        size: 0,
    }
}

// A stretch of a table, copied out.
pub fn copy_out(part: &[u16], out: &mut [u16]) -> HostReply
    ensures { record { reply = result; out = out.new } ≡ host_neighbours part.now out.old }
{
    if out.len() < part.len() {
        return refused(TOO_SHORT);
    }
    copy(part, out);
    accepted(part.len(), 0)
}
