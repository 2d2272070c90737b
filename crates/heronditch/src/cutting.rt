// A session: cutting links while searching. It lives in five tables of fixed size that are lent to each call;
// library/host.c has them in one struct.
ghost use Rattle.heronditch_told.specs.Told.{told};
ghost use Rattle.heronditch.specs.Session.{HostOpen, HostCut, HostReadOut};
ghost use Rattle.session.specs.State.{state};

use heronditch_reply::{HostReply, of_number, of_verdict};
use heronditch_told::editions_of;

// Opens a session on a pattern and a board: all links are left. Refused as the whole-board call is, but for 8.
#[unsafe(no_mangle)]
pub extern "C" fn heronditch_session_open(
    pattern: &[u8],
    pattern_edition: u32,
    board: &[u8],
    board_edition: u32,
    fixed: &mut [u32; 66],
    offsets: &mut [u16; 1026],
    numbers: &mut [u16; 8192],
    ends: &mut [u16; 8192],
    sets: &mut [u32; 512],
) -> HostReply
    ensures { HostOpen (told pattern.now pattern_edition)
        (told board.now board_edition)
        (state fixed.old offsets.old numbers.old ends.old
        sets.old) result
        (state fixed.new offsets.new numbers.new ends.new
        sets.new) }
{
    of_verdict(call_session::open(
        editions_of(pattern_edition, board_edition),
        pattern,
        board,
        &mut fixed[..],
        &mut offsets[..],
        &mut numbers[..],
        &mut ends[..],
        &mut sets[..],
    ))
}

// Cuts a link, told by its index in the board's file, from 0: 14 where it is out already or not there, which changes
// nothing.
#[unsafe(no_mangle)]
pub extern "C" fn heronditch_session_cut(
    fixed: &[u32; 66],
    offsets: &[u16; 1026],
    numbers: &[u16; 8192],
    ends: &mut [u16; 8192],
    sets: &mut [u32; 512],
    link: usize,
) -> HostReply
    ensures { HostCut (state fixed.now offsets.now numbers.now
        ends.old sets.old) link result
        (state fixed.now offsets.now numbers.now ends.new sets.new) }
{
    of_verdict(session_cut::cut(
        &fixed[..],
        &offsets[..],
        &numbers[..],
        &mut ends[..],
        &mut sets[..],
        link,
    ))
}

// Reads the table out, on the links that are left. Replies with N.
#[unsafe(no_mangle)]
pub extern "C" fn heronditch_session_table(
    fixed: &[u32; 66],
    sets: &[u32; 512],
    table: &mut [u32],
) -> HostReply
    ensures { HostReadOut fixed.now sets.now table.old result table.new }
{
    of_number(session_cut::read_out(&fixed[..], &sets[..], table))
}
