// Distances in circuit files: a pattern's radius, and the ball around a node of a board.
#![tactic(auto)]

ghost use Rattle.std.specs.Prelude.{◌≡◌};
ghost use Rattle.file_format.specs.Layout.{in_edition};
ghost use Rattle.file_format.specs.Reply.{number_reply};
ghost use Rattle.call_distance.specs.Calls.{radius_call, ball_call};

use crate::distances::fill_ball;
use call_decide::ball::ball_verdict;
use file_format::{Board, Edition, Pattern, Refusal, Role};
use file_read::load;

pub mod distances;

// The radius of a pattern: the largest distance between two of its parts; or why the file was turned away.
pub fn radius(edition: Edition, file: &[u8]) -> Result<usize, Refusal>
    ensures { number_reply result ≡ radius_call (in_edition edition file.now) }
{
    let mut pk = [0u32; Pattern::MAX_NODES];
    let mut ps = [0u16; Pattern::MAX_LINKS];
    let mut pe = [0u16; Pattern::MAX_LINKS];
    let read = load(Role::Pattern, edition, file, &mut pk, &mut ps, &mut pe)?;
    Ok(read.radius as usize)
}

// The ball around a node of a board: the distance of each node from the centre, and 65,535 outside, first in `out`, and
// the board's N; or the refusal, which leaves `out` as it was.
pub fn ball(
    edition: Edition,
    file: &[u8],
    centre: usize,
    radius: u16,
    out: &mut [u16],
) -> Result<usize, Refusal>
    ensures { record { reply = number_reply result; out = out.new }
        ≡ ball_call (in_edition edition file.now) centre radius out.old }
{
    let mut nk = [0u32; Board::MAX_NODES];
    let mut ns = [0u16; Board::MAX_LINKS];
    let mut ne = [0u16; Board::MAX_LINKS];
    let read = load(Role::Board, edition, file, &mut nk, &mut ns, &mut ne)?;
    let n = read.nodes;
    let m = read.links;
    ball_verdict(n, centre, out.len())?;
    fill_ball(&nk[..n], &ns[..m], &ne[..m], centre as u16, radius, out);
    Ok(n)
}
