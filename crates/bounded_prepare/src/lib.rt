// What the passes look up: the masks of a pattern with bounds, and the largest bound in use.
#![tactic(auto)]

ghost use Rattle.std.specs.Prelude.{◌≡◌, ◌≤◌, length};
ghost use Rattle.base_lists.specs.List.{Below};
ghost use Rattle.table.specs.Prepared.{masks_of};
ghost use Rattle.bounded_strike.specs.Prepared.{keyed, BoundMasked, Top};
ghost use Rattle.bounded.specs.Problem.{InBounds};

use bounded_strike::{BOUND_MASKS, WAY_MASKS};
use file_format::Pattern;
use table_prepare::masks::masks_of;

// For each link its bound and a part as one number: 32 numbers for each bound.
fn keys_of(bounds: &[u16], parts: &[u16], keys: &mut [u16])
    requires in_bounds { InBounds bounds.now × Below 32 parts.now }
    requires bounds_len { (length bounds.now ≡ length parts.now) × (length keys.old ≡ length parts.now) }
    ensures { keys.new ≡ keyed bounds.now parts.now }
{
    for i in 0..keys.len() {
        keys[i] = 32 * (bounds[i] - 1) + parts[i];
    }
}

// The masks in one direction: for each bound and part the set of the values that stand beside them. The keys are
// scratch.
fn way_masks(bounds: &[u16], parts: &[u16], values: &[u16], keys: &mut [u16], masks: &mut [u32])
    requires in_bounds { InBounds bounds.now × Below 32 parts.now × Below 32 values.now }
    requires bounds_len { (length bounds.now ≡ length parts.now) × (length keys.old ≡ length parts.now)
        × (length parts.now ≡ length values.now) × (length masks.old ≡ 128) }
    ensures { masks.new ≡ masks_of 128 (keyed bounds.now parts.now)
        values.now }
{
    keys_of(bounds, parts, keys);
    masks_of(keys, values, masks);
}

// The masks of a pattern in both directions, by bound and part.
pub fn bound_masks(bounds: &[u16], starts: &[u16], ends: &[u16], masks: &mut [u32])
    requires in_bounds { InBounds bounds.now × Below 32 starts.now × Below 32 ends.now }
    requires bounds_len { (length bounds.now ≡ length starts.now) × (length starts.now ≡ length ends.now)
        × (length starts.now ≤ 256) × (length masks.old ≡ 256) }
    ensures { BoundMasked bounds.now starts.now ends.now masks.new }
{
    let mut forth = [0u16; Pattern::MAX_LINKS];
    let mut back = [0u16; Pattern::MAX_LINKS];
    let m = starts.len();
    way_masks(
        bounds,
        starts,
        ends,
        &mut forth[..m],
        &mut masks[..WAY_MASKS],
    );
    way_masks(
        bounds,
        ends,
        starts,
        &mut back[..m],
        &mut masks[WAY_MASKS..BOUND_MASKS],
    );
}

// The largest of the bounds, and 1 where there are none.
pub fn largest_bound(bounds: &[u16]) -> usize
    requires { InBounds bounds.now }
    ensures { Top bounds.now result }
{
    bounds.iter().copied().max().unwrap_or(1) as usize
}
