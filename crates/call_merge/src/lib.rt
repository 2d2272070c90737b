// The merging call: the merged pattern of a pattern file.
#![tactic(auto)]

ghost use Rattle.std.specs.Prelude.{◌≡◌};
ghost use Rattle.file_format.specs.Layout.{in_edition};
ghost use Rattle.call_merge.specs.Call.{merge_reply, merging};

use file_format::{Edition, Pattern, Refusal, Role, TOO_SHORT};
use file_read::load;
use merge_file::{Merged, merge_circuit};

// Merges the parts of a pattern file that match each other: the number of classes and the merged file's length, with
// the class of each part, a byte each, and the merged file at the front of the two tables; or the refusal, which leaves
// them as they were. The file is read and both lengths are tested before anything is written to the lent tables.
pub fn merge(
    edition: Edition,
    pattern: &[u8],
    classes: &mut [u8],
    out: &mut [u8],
) -> Result<Merged, Refusal>
    ensures { record { reply = merge_reply result; classes = classes.new; out = out.new }
        ≡ merging (in_edition edition pattern.now) classes.old out.old }
{
    let mut pk = [0u32; Pattern::MAX_NODES];
    let mut ps = [0u16; Pattern::MAX_LINKS];
    let mut pe = [0u16; Pattern::MAX_LINKS];
    let read = load(Role::Pattern, edition, pattern, &mut pk, &mut ps, &mut pe)?;
    let n = read.nodes;
    let m = read.links;
    if classes.len() < n {
        return Err(TOO_SHORT);
    }
    if out.len() < pattern.len() {
        return Err(TOO_SHORT);
    }
    Ok(merge_circuit(
        edition,
        &pk[..n],
        &ps[..m],
        &pe[..m],
        &mut classes[..n],
        out,
    ))
}
