// Matching on the whole board.
ghost use Rattle.std.specs.Prelude.{◌≡◌};
ghost use Rattle.call_bounded.specs.Call.{bounded_matching};
ghost use Rattle.call_match.specs.Call.{one_way_matching};
ghost use Rattle.heronditch.specs.Host.{matching_told, host_match};
ghost use Rattle.heronditch_told.specs.Told.{told};

use crate::replies::of_match;
use heronditch_reply::Counted;
use heronditch_told::{edition_of, editions_of, is_third};

// The whole-board call on a pattern of the third edition, whose links have bounds. It is exported for the stack's sake
// alone: so the compiler keeps it a function of its own, and heronditch_match has no room for both ways of matching at
// once. library/combine keeps its name inside the archive.
#[unsafe(no_mangle)]
pub extern "C" fn heronditch_match_third(
    pattern: &[u8],
    board: &[u8],
    board_edition: u32,
    table: &mut [u32],
) -> Counted
    ensures { record { reply = result; table = table.new }
        ≡ host_match (bounded_matching pattern.now (told board.now board_edition)
        table.old) }
{
    of_match(call_bounded::match_bounds(edition_of(board_edition), pattern, board, table))
}

// Matches the pattern, connected or not, on the whole board: the largest dual simulation, as a set of parts for each
// node, and the four counts. It alone takes a pattern of the third edition, whose links have bounds.
#[unsafe(no_mangle)]
pub extern "C" fn heronditch_match(
    pattern: &[u8],
    pattern_edition: u32,
    board: &[u8],
    board_edition: u32,
    table: &mut [u32],
) -> Counted
    ensures { record { reply = result; table = table.new }
        ≡ host_match (matching_told pattern.now pattern_edition (told board.now board_edition)
        table.old) }
{
    if is_third(pattern_edition) {
        return heronditch_match_third(pattern, board, board_edition, table);
    }
    let editions = editions_of(pattern_edition, board_edition);
    of_match(call_match::match_table(editions, pattern, board, table))
}

// The same one way, without bounds: a pair needs partners for what its part drives, and none for what drives it.
#[unsafe(no_mangle)]
pub extern "C" fn heronditch_match_one_way(
    pattern: &[u8],
    pattern_edition: u32,
    board: &[u8],
    board_edition: u32,
    table: &mut [u32],
) -> Counted
    ensures { record { reply = result; table = table.new }
        ≡ host_match (one_way_matching (told pattern.now pattern_edition)
        (told board.now board_edition) table.old) }
{
    let editions = editions_of(pattern_edition, board_edition);
    of_match(call_match::match_one_way(editions, pattern, board, table))
}
