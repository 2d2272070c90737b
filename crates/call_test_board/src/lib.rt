// The call that makes a test board: an invented board, the same in every installation, from four numbers.
#![tactic(auto)]

ghost use Rattle.std.specs.Prelude.{◌≡◌};
ghost use Rattle.file_format.specs.Reply.{number_reply};
ghost use Rattle.call_test_board.specs.Call.{making_test_board};

use crate::make::make;
use file_format::{File, Refusal, TOO_SHORT};
use test_board::in_range;

mod make;

// One of the four numbers is out of its range.
const OUT_OF_RANGE: Refusal = Refusal {
    number: 10,
    file: File::Neither,
};

// Makes the board of n nodes with kinds below k, and of m links drawn, those drawn twice being one, that a seed gives.
// Its file stands at the front of the bytes lent, and the answer is its length; or the refusal, which leaves every byte
// as it was.
pub fn test_board(seed: u32, n: u32, m: u32, k: u32, out: &mut [u8]) -> Result<usize, Refusal>
    ensures { record { reply = number_reply result; out = out.new }
        ≡ making_test_board seed n m k out.old }
{
    let fits = in_range(n, m, k);
    let nodes = n as usize;
    let links = m as usize;
    let is_short = out.len() < 4 + 2 * nodes + 4 * links;
    if !fits {
        return Err(OUT_OF_RANGE);
    }
    if is_short {
        return Err(TOO_SHORT);
    }
    Ok(make(seed, nodes, links, k as usize, out))
}
