// A piece of the report of two files that were opened, put into a lent buffer.
#![tactic(auto)]

ghost use Rattle.report_answer.specs.Call.{report_reply};
ghost use Rattle.table.specs.Prepared.{tables};
ghost use Rattle.call_open.specs.Opened.{SomeOpened};
ghost use Rattle.call_piece.specs.Reported.{EveryReported};

use file_format::{Refusal, TOO_SHORT};
use file_pair::Pair;
use report_answer::answer_refused;
use report_centres::{Resume, put_lines};
use report_pieces::{LONGEST, PutPiece, put_nothing};

// A piece of the report of two files that were opened, as `report` puts it.
pub fn put(
    read: Result<Pair, Refusal>,
    masks: &[u32],
    offsets: &[u16],
    targets: &[u16],
    whole: &[u32],
    component_of: &[u16],
    sizes: &[u16],
    from: usize,
    found: u16,
    out: &mut [u8],
) -> Result<PutPiece, Refusal>
    requires { let t = tables masks.now offsets.now targets.now in SomeOpened from read t whole.now component_of.now sizes.now }
    ensures { let t = tables masks.now offsets.now targets.now in EveryReported from found read t
        whole.now component_of.now sizes.now
        out.old (record { reply = report_reply result; out = out.new }) }
{
    let pair = match read {
        Ok(pair) => pair,
        Err(x) => return answer_refused(x, from, found, out),
    };
    if out.len() < LONGEST {
        return Err(TOO_SHORT);
    }
    let nodes = pair.nodes;
    if nodes < from {
        return Ok(put_nothing(from, found));
    }
    let resume = Resume {
        radius: pair.radius,
        from,
        found,
    };
    Ok(put_lines(
        masks,
        offsets,
        targets,
        &whole[..nodes],
        &component_of[..nodes],
        &sizes[..nodes],
        resume,
        out,
    ))
}
