// What a host program tells by a number: an edition, a role, a direction. Every number has an answer.
#![tactic(auto)]

ghost use Rattle.std.specs.Prelude.{◌≡◌};
ghost use Rattle.file_format.specs.declared.Edition.TheVariants.{First};
ghost use Rattle.heronditch_told.specs.Told.{edition_of, is_third, role_of, as_role, direction_of};

use file_format::{Edition, Editions, Role};
use graph_neighbours::neighbours::Direction;

// Functions and no `From` for what a number stands for: editions and directions are other crates' types.

// The edition that a number stands for.
pub fn edition_of(number: u32) -> Edition
    ensures { result ≡ edition_of number }
{
    if number < 2 {
        return Edition::First;
    }
    Edition::Second
}

// The editions of a pattern file and of a board file.
pub fn editions_of(pattern: u32, board: u32) -> Editions
    ensures { (result.pattern ≡ edition_of pattern) × (result.board ≡ edition_of board) }
{
    Editions {
        pattern: edition_of(pattern),
        board: edition_of(board),
    }
}

// A number that stands for the first edition, which document 02's C call and report still read.
pub fn first_edition() -> u32
    ensures { edition_of result ≡ First }
{
    1
}

// Whether a number stands for the third edition.
pub fn is_third(number: u32) -> bool
    ensures { result ≡ is_third number }
{
    2 < number
}

// What a file is told to be by who asks for it to be read, written or converted: of either, the conditions of its role
// are asked, of a pattern 6 and 11 too. That a pattern need not be connected is a role of the calls on a whole board
// alone, and cannot be told.
#[derive(Clone, Copy)]
pub enum FileRole {
    Pattern,
    Board,
}

// The role by which a file is read and written. (A function and no `From`: the promises name it, docs/PROMISES.md.)
pub fn as_role(told: FileRole) -> Role
    ensures { result ≡ as_role told }
{
    match told {
        FileRole::Pattern => Role::Pattern,
        FileRole::Board => Role::Board,
    }
}

// The role that a number stands for.
pub fn role_of(number: u32) -> FileRole
    ensures { result ≡ role_of number }
{
    if number < 2 {
        return FileRole::Pattern;
    }
    FileRole::Board
}

// The direction that a number stands for.
pub fn direction_of(number: u32) -> Direction
    ensures { result ≡ direction_of number }
{
    if number < 2 {
        return Direction::Forward;
    }
    Direction::Backward
}
