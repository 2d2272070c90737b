// What the report call comes to where a file is refused.
#![tactic(auto)]

ghost use Rattle.std.specs.Prelude.{◌≡◌};
ghost use Rattle.report.specs.Lines.{longest_refusal};
ghost use Rattle.report_pieces.specs.Pieces.{refusal_piece};
ghost use Rattle.report_answer.specs.Call.{outcome_for, report_reply};

use file_format::{Refusal, TOO_SHORT};
use report_pieces::{PutPiece, put_refused};

// Room for the line of any refused file: its number has at most three digits.
const LONGEST_REFUSAL: usize = 20;

// A piece of the report of refused files: the line that says so, or nothing after it; or 8 where there is no room.
pub fn answer_refused(
    x: Refusal,
    from: usize,
    found: u16,
    out: &mut [u8],
) -> Result<PutPiece, Refusal>
    ensures { record { reply = report_reply result; out = out.new }
        ≡ outcome_for longest_refusal (refusal_piece x from found) out.old }
{
    if out.len() < LONGEST_REFUSAL {
        return Err(TOO_SHORT);
    }
    Ok(put_refused(x, from, found, out))
}
