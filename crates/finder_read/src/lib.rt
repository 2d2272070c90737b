// What the report program reads: `pattern.cir` and `board.cir` in the folder it is run in, an absent file as an empty
// one.
#![tactic(auto)]

ghost use Rattle.std.specs.Prelude.{◌≡◌, length, IfSome};
ghost use Rattle.input.specs.Reading.{IsPrefixLen};
ghost use Rattle.finder_read.specs.Cut.{most};
ghost use Rattle.finder_read.specs.Held.{file_name_of, held_of};

use file_format::{Board, Pattern, Role};
use input::ReadError;

// A byte more than the longest file that is accepted in each role: the report of what is read so is the report of the
// files (finder/proofs/Cut).
pub const PATTERN_BYTES: usize = 4 + 2 * Pattern::MAX_NODES + 4 * Pattern::MAX_LINKS + 1;

pub const BOARD_BYTES: usize = 4 + 2 * Board::MAX_NODES + 4 * Board::MAX_LINKS + 1;

// What is held of both files: how many bytes of each stand at the front of its buffer, none of an absent one; or None
// where the file is there and cannot be read.
#[derive(Clone, Copy)]
pub struct Files {
    pub pattern: Option<usize>,
    pub board: Option<usize>,
}

// How many bytes were read, where an absent file counts as an empty one.
#[tactic(auto, unfolding(crate::specs::Held::held_of))]
fn as_read(found: Result<usize, ReadError>) -> Option<usize>
    ensures { result ≡ held_of found }
{
    match found {
        Ok(size) => Some(size),
        Err(ReadError::Absent) => Some(0),
        Err(ReadError::Unreadable) => None,
    }
}

// The bytes of the file in a role, by its name, none where it is absent, in a buffer of a byte more than the longest
// that is accepted.
fn load(rt: &HostRuntime, role: Role, name: &str, buf: &mut [u8]) -> Option<usize>
    requires { (name.now ≡ file_name_of role) × (length buf.old ≡ most role) }
    ensures { IfSome result (λ size. IsPrefixLen size buf.new) }
{
    as_read(input::load(rt, name, buf))
}

// The bytes of both files, in buffers that are lent as arrays: so their lengths are known by their types.
pub fn read_files(
    rt: &HostRuntime,
    pattern: &mut [u8; PATTERN_BYTES],
    board: &mut [u8; BOARD_BYTES],
) -> Files
    ensures pattern_held { IfSome result.pattern (λ size. IsPrefixLen size pattern.new) }
    ensures board_held { IfSome result.board (λ size. IsPrefixLen size board.new) }
{
    let first = load(rt, Role::Pattern, "pattern.cir", &mut pattern[..]);
    let second = load(rt, Role::Board, "board.cir", &mut board[..]);
    Files {
        pattern: first,
        board: second,
    }
}
