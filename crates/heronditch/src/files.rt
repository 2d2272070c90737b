// Circuit files: read, written, converted and made; and distances in them.
ghost use Rattle.std.specs.Prelude.{◌≡◌};
ghost use Rattle.file_format.specs.Reading.{reading};
ghost use Rattle.file_write.specs.Writing.{writing};
ghost use Rattle.graph_neighbours.specs.Lookup.{neighbours_of};
ghost use Rattle.call_convert.specs.Call.{converting};
ghost use Rattle.call_distance.specs.Calls.{radius_call, ball_call};
ghost use Rattle.call_test_board.specs.Call.{making_test_board};
ghost use Rattle.call_merge.specs.Call.{merging};
ghost use Rattle.heronditch.specs.Host.{read_as, host_read, host_write, host_convert, host_ball, host_merge};
ghost use Rattle.heronditch.specs.Host.{host_test_board};
ghost use Rattle.heronditch_reply.specs.Replies.{slots, host_neighbours};
ghost use Rattle.heronditch_told.specs.Told.{told, edition_of, role_of, direction_of, as_role};

use crate::replies::of_merge;
use graph_neighbours::neighbours::neighbours;
use heronditch_reply::{HostReply, copy_out, of_number, of_read};
use heronditch_told::{as_role, direction_of, edition_of, role_of};

// Reads a file in a role: N kinds, in the second edition N packages, M link starts and M link ends. Replies with N and
// M.
#[unsafe(no_mangle)]
pub extern "C" fn heronditch_read(
    role: u32,
    file: &[u8],
    edition: u32,
    kinds: &mut [u16],
    packages: &mut [u16],
    starts: &mut [u16],
    ends: &mut [u16],
) -> HostReply
    ensures { read_as result kinds.new packages.new starts.new ends.new
        ≡ host_read (reading (as_role (role_of role)) (told file.now edition) kinds.old
        packages.old starts.old ends.old) }
{
    of_read(file_read::read(
        as_role(role_of(role)),
        edition_of(edition),
        file,
        kinds,
        packages,
        starts,
        ends,
    ))
}

// Writes the file of a circuit in a role and an edition. Replies with its length.
#[unsafe(no_mangle)]
pub extern "C" fn heronditch_write(
    role: u32,
    edition: u32,
    kinds: &[u16],
    packages: &[u16],
    starts: &[u16],
    ends: &[u16],
    out: &mut [u8],
) -> HostReply
    ensures { record { reply = result; out = out.new }
        ≡ host_write (writing (as_role (role_of role)) (edition_of edition) kinds.now packages.now
        starts.now ends.now out.old) }
{
    of_number(file_write::write(
        as_role(role_of(role)),
        edition_of(edition),
        kinds,
        packages,
        starts,
        ends,
        out,
    ))
}

// Converts a file from its edition to another, and keeps the circuit. Replies with the new file's length.
#[unsafe(no_mangle)]
pub extern "C" fn heronditch_convert(
    role: u32,
    file: &[u8],
    edition: u32,
    to_edition: u32,
    out: &mut [u8],
) -> HostReply
    ensures { record { reply = result; out = out.new }
        ≡ host_convert (converting (as_role (role_of role)) (edition_of to_edition) (told file.now edition)
        out.old) }
{
    of_number(call_convert_file::convert(
        as_role(role_of(role)),
        edition_of(edition),
        edition_of(to_edition),
        file,
        out,
    ))
}

// Makes a test board, a first-edition file, from four numbers. Replies with the file's length.
#[unsafe(no_mangle)]
pub extern "C" fn heronditch_test_board(
    seed: u32,
    n: u32,
    m: u32,
    k: u32,
    out: &mut [u8],
) -> HostReply
    ensures { record { reply = result; out = out.new }
        ≡ host_test_board (making_test_board seed n m k out.old) }
{
    of_number(call_test_board::test_board(seed, n, m, k, out))
}

// Looks up what a node drives, or what drives it: a stretch of the forward or of the backward table, copied to the
// front of `out`. Replies with its length.
#[unsafe(no_mangle)]
pub extern "C" fn heronditch_neighbours<'a>(
    direction: u32,
    forward_offsets: &[u16],
    forward: &'a [u16],
    backward_offsets: &[u16],
    backward: &'a [u16],
    node: usize,
    out: &mut [u16],
) -> HostReply
    ensures { record { reply = result; out = out.new }
        ≡ host_neighbours (neighbours_of (direction_of direction) forward_offsets.now forward.now
        backward_offsets.now backward.now node) out.old }
{
    let part = neighbours(
        direction_of(direction),
        forward_offsets,
        forward,
        backward_offsets,
        backward,
        node,
    );
    copy_out(part, out)
}

// Replies with the pattern's radius.
#[unsafe(no_mangle)]
pub extern "C" fn heronditch_radius(pattern: &[u8], pattern_edition: u32) -> HostReply
    ensures { result ≡ slots (radius_call (told pattern.now pattern_edition)) }
{
    of_number(call_distance::radius(edition_of(pattern_edition), pattern))
}

// Measures the ball around a node of the board: each node's distance from the centre, 65,535 outside the ball. Replies
// with N.
#[unsafe(no_mangle)]
pub extern "C" fn heronditch_ball(
    board: &[u8],
    board_edition: u32,
    centre: usize,
    radius: u16,
    out: &mut [u16],
) -> HostReply
    ensures { record { reply = result; out = out.new }
        ≡ host_ball (ball_call (told board.now board_edition) centre radius out.old) }
{
    of_number(call_distance::ball(edition_of(board_edition), board, centre, radius, out))
}

// Merges the parts of a pattern that match each other: each part's class, and the merged pattern's file, of the
// pattern's edition. Replies with the number of classes and that file's length.
#[unsafe(no_mangle)]
pub extern "C" fn heronditch_merge(
    pattern: &[u8],
    pattern_edition: u32,
    classes: &mut [u8],
    out: &mut [u8],
) -> HostReply
    ensures { record { reply = result; classes = classes.new; out = out.new }
        ≡ host_merge (merging (told pattern.now pattern_edition) classes.old out.old) }
{
    of_merge(call_merge::merge(edition_of(pattern_edition), pattern, classes, out))
}
