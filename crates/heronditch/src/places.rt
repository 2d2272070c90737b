// Places around a centre, what is proposed as one, why there is none, and the report of all centres.
ghost use Rattle.std.specs.Prelude.{◌≡◌};
ghost use Rattle.file_format.specs.Circuit.{circuit_of};
ghost use Rattle.file_format.specs.Layout.{first_edition};
ghost use Rattle.place.specs.Match.{radius_of};
ghost use Rattle.call_place.specs.Call.{place_at};
ghost use Rattle.call_check.specs.Call.{check_call};
ghost use Rattle.call_barring.specs.Call.{bar_call};
ghost use Rattle.report_answer.specs.Call.{reporting};
ghost use Rattle.heronditch.specs.Host.{placed_as, host_place, host_bar, host_report};
ghost use Rattle.heronditch_reply.specs.Replies.{slots};
ghost use Rattle.heronditch_told.specs.Told.{told};

use crate::replies::{of_check, of_place, of_report};
use call_place::Question;
use heronditch_reply::{Counted, HostReply, Piece, of_number};
use heronditch_told::{editions_of, first_edition};

// Finds the pattern around a node of the board, at the pattern's radius: the place's nodes and links, its table, and
// each node's distance from the centre. The counts are those of the whole ball.
#[unsafe(no_mangle)]
pub extern "C" fn heronditch_place_editions(
    pattern: &[u8],
    pattern_edition: u32,
    board: &[u8],
    board_edition: u32,
    centre: usize,
    nodes: &mut [u8],
    link_bytes: &mut [u8],
    table: &mut [u32],
    distances: &mut [u16],
) -> Counted
    ensures { placed_as result nodes.new link_bytes.new table.new
        distances.new
        ≡ host_place (place_at (told pattern.now pattern_edition) (told board.now board_edition)
        centre (radius_of (circuit_of (told pattern.now pattern_edition)))
        nodes.old link_bytes.old table.old distances.old) }
{
    let asked = Question {
        centre,
        editions: editions_of(pattern_edition, board_edition),
        reach: None,
    };
    of_place(call_place::place(asked, pattern, board, nodes, link_bytes, table, distances))
}

// The same at a radius given.
#[unsafe(no_mangle)]
pub extern "C" fn heronditch_place_within_editions(
    pattern: &[u8],
    pattern_edition: u32,
    board: &[u8],
    board_edition: u32,
    centre: usize,
    radius: u16,
    nodes: &mut [u8],
    link_bytes: &mut [u8],
    table: &mut [u32],
    distances: &mut [u16],
) -> Counted
    ensures { placed_as result nodes.new link_bytes.new table.new
        distances.new
        ≡ host_place (place_at (told pattern.now pattern_edition) (told board.now board_edition)
        centre radius
        nodes.old link_bytes.old table.old distances.old) }
{
    let asked = Question {
        centre,
        editions: editions_of(pattern_edition, board_edition),
        reach: Some(radius),
    };
    of_place(call_place::place(asked, pattern, board, nodes, link_bytes, table, distances))
}

// Finds the pattern around a node of the board, at the pattern's radius, in files of the first edition: "the C call
// still read[s] the first".
#[unsafe(no_mangle)]
pub extern "C" fn heronditch_place(
    pattern: &[u8],
    board: &[u8],
    centre: usize,
    nodes: &mut [u8],
    link_bytes: &mut [u8],
    table: &mut [u32],
    distances: &mut [u16],
) -> Counted
    ensures { placed_as result nodes.new link_bytes.new table.new
        distances.new
        ≡ host_place (place_at (first_edition pattern.now) (first_edition board.now) centre
        (radius_of (circuit_of (first_edition pattern.now)))
        nodes.old link_bytes.old table.old distances.old) }
{
    let first = first_edition();
    heronditch_place_editions(
        pattern, first, board, first, centre, nodes, link_bytes, table, distances,
    )
}

// The same at a radius given.
#[unsafe(no_mangle)]
pub extern "C" fn heronditch_place_within(
    pattern: &[u8],
    board: &[u8],
    centre: usize,
    radius: u16,
    nodes: &mut [u8],
    link_bytes: &mut [u8],
    table: &mut [u32],
    distances: &mut [u16],
) -> Counted
    ensures { placed_as result nodes.new link_bytes.new table.new
        distances.new
        ≡ host_place (place_at (first_edition pattern.now) (first_edition board.now) centre radius
        nodes.old link_bytes.old table.old distances.old) }
{
    let first = first_edition();
    heronditch_place_within_editions(
        pattern, first, board, first, centre, radius, nodes, link_bytes, table, distances,
    )
}

// Checks a place from elsewhere: replies with 1 where the marked nodes and links are a perfect subgraph around the
// centre at the pattern's radius, largest or not, and else with 0.
#[unsafe(no_mangle)]
pub extern "C" fn heronditch_check(
    pattern: &[u8],
    pattern_edition: u32,
    board: &[u8],
    board_edition: u32,
    centre: usize,
    nodes: &[u8],
    link_bytes: &[u8],
) -> HostReply
    ensures { result ≡ slots (check_call (told pattern.now pattern_edition)
        (told board.now board_edition) centre
        nodes.now link_bytes.now) }
{
    of_check(call_check::check(
        editions_of(pattern_edition, board_edition),
        pattern,
        board,
        centre,
        nodes,
        link_bytes,
    ))
}

// Says why there is no place around a node of the board, by few of the pattern's links: a byte for each, 1 for kept.
// Replies with how many are 1.
#[unsafe(no_mangle)]
pub extern "C" fn heronditch_bar(
    pattern: &[u8],
    pattern_edition: u32,
    board: &[u8],
    board_edition: u32,
    centre: usize,
    out: &mut [u8],
) -> HostReply
    ensures { record { reply = result; out = out.new }
        ≡ host_bar (bar_call (told pattern.now pattern_edition) (told board.now board_edition)
        centre out.old) }
{
    of_number(call_barring::bar(
        editions_of(pattern_edition, board_edition),
        pattern,
        board,
        centre,
        out,
    ))
}
// Puts a piece of the report of a pattern on a board: the lines of the centres from a node on, and the last line where
// the centres are done.
#[unsafe(no_mangle)]
pub extern "C" fn heronditch_report_editions(
    pattern: &[u8],
    pattern_edition: u32,
    board: &[u8],
    board_edition: u32,
    from: usize,
    found: u16,
    out: &mut [u8],
) -> Piece
    ensures { record { reply = result; out = out.new }
        ≡ host_report (reporting (told pattern.now pattern_edition)
        (told board.now board_edition) from found out.old) }
{
    of_report(call_report::report(
        editions_of(pattern_edition, board_edition),
        pattern,
        board,
        from,
        found,
        out,
    ))
}

// The same of files of the first edition.
#[unsafe(no_mangle)]
pub extern "C" fn heronditch_report(
    pattern: &[u8],
    board: &[u8],
    from: usize,
    found: u16,
    out: &mut [u8],
) -> Piece
    ensures { record { reply = result; out = out.new }
        ≡ host_report (reporting (first_edition pattern.now) (first_edition board.now) from found
        out.old) }
{
    let first = first_edition();
    heronditch_report_editions(pattern, first, board, first, from, found, out)
}
