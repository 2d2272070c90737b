// What is decided of a ball, by its centre and how many entries are lent for it.
ghost use Rattle.std.specs.Prelude.{◌≡◌};
ghost use Rattle.file_format.specs.Refusals.{first};
ghost use Rattle.file_format.specs.Reply.{verdict_of};
ghost use Rattle.call_decide.specs.Decide.{ball_room};

use file_format::{OUTSIDE, Refusal, TOO_SHORT};

// The verdict on the ball around a node of a board of n nodes: 7 for the centre, then 8 for the table.
pub fn ball_verdict(n: usize, centre: usize, lent: usize) -> Result<(), Refusal>
    ensures { verdict_of result ≡ first (ball_room n centre lent) }
{
    if n <= centre {
        return Err(OUTSIDE);
    }
    if lent < n {
        return Err(TOO_SHORT);
    }
    Ok(())
}
