// Sets of parts for each part: those that it drives, or those that drive it.
ghost use Rattle.std.specs.Prelude.{cond, [], ◌≡◌, length};
ghost use Rattle.base_lists.specs.List.{Below};
ghost use Rattle.simulation.specs.Simulation.{backwards};
ghost use Rattle.table.specs.Prepared.{masks_of, MaskedBy, Masked};
ghost use Rattle.table.specs.Row.{ways_of, among};

use base_lists::fill;
use table::{FORWARD_MASKS, MASKS, Ways};

// For each part the set of the values that stand beside it among the keys: with the link starts as keys and the ends as
// values the parts that it drives, with the two swapped the parts that drive it.
pub fn masks_of(keys: &[u16], values: &[u16], out: &mut [u32])
    requires keys_len { length keys.now ≡ length values.now }
    requires below { Below (length out.old) keys.now }
    requires below_2 { Below 32 values.now }
    ensures { out.new ≡ masks_of (length out.old) keys.now values.now }
{
    fill(out, 0);
    for (&key, &value) in keys.iter().zip(values) {
        out[key as usize] |= base_bits::single(value as u32);
    }
}

// One half of the masks, by the links followed in one direction: those of a direction that counts, and empty ones of
// another.
fn half_of(counts: bool, keys: &[u16], values: &[u16], out: &mut [u32])
    requires keys_len { (length keys.now ≡ length values.now) × Below 32 keys.now × Below 32 values.now }
    requires out_len { length out.old ≡ 32 }
    ensures { out.new ≡ masks_of 32 (cond counts keys.now [])
        (cond counts values.now []) }
{
    if counts {
        masks_of(keys, values, out);
    } else {
        fill(out, 0);
    }
}

// Whether what drives a part counts.
fn backwards_count(ways: Ways) -> bool
    ensures { result ≡ among (ways_of ways) backwards }
{
    match ways {
        Ways::Both => true,
        Ways::Forward => false,
    }
}

// Both halves of the masks of a pattern's links: for each part those that it drives, and then for each those that drive
// it, where they count.
pub fn masks_along(ways: Ways, starts: &[u16], ends: &[u16], masks: &mut [u32])
    requires starts_len { (length starts.now ≡ length ends.now) × Below 32 starts.now × Below 32 ends.now }
    requires masks_len { length masks.old ≡ 64 }
    ensures { MaskedBy (ways_of ways) starts.now ends.now masks.new }
{
    let back = backwards_count(ways);
    half_of(true, starts, ends, &mut masks[..FORWARD_MASKS]);
    half_of(back, ends, starts, &mut masks[FORWARD_MASKS..MASKS]);
}

// The masks of both directions. (A function of its own: it promises `Masked`, which its callers need.)
pub fn pattern_masks(starts: &[u16], ends: &[u16], masks: &mut [u32])
    requires starts_len { (length starts.now ≡ length ends.now) × Below 32 starts.now × Below 32 ends.now }
    requires masks_len { length masks.old ≡ 64 }
    ensures { Masked starts.now ends.now masks.new }
{
    masks_along(Ways::Both, starts, ends, masks);
}
