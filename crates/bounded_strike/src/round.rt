// One round: a pass for each direction and each bound in use, all of them from the table of the round before.
ghost use Rattle.std.specs.Prelude.{◌≡◌, ◌≤◌, length};
ghost use Rattle.graph.specs.Net.{Net};
ghost use Rattle.graph_neighbours.specs.Lookup.{neighbours_in};
ghost use Rattle.table.specs.Prepared.{tables};
ghost use Rattle.table.specs.Row.{pairs};
ghost use Rattle.bounded_layer.specs.Pass.{pass_table, next_layer};
ghost use Rattle.bounded_strike.specs.Round.{passes, round_table, BoundedReady};

use crate::{BOUND_MASKS, WAY_MASKS};
use base_lists::copy;
use bounded_layer::layer::widen;
use bounded_layer::pass::pass;
use graph_neighbours::neighbours::Direction;
use table_strike::all_empty;

// One pass; none is made where no part has a link of this bound, since it would keep every set.
fn pass_asked(
    way: Direction,
    masks: &[u32],
    offsets: &[u16],
    targets: &[u16],
    layer: &[u32],
    new: &mut [u32],
)
    requires { (length masks.now ≡ 32) × Net (length layer.now) offsets.now targets.now
        × (length new.old ≡ length layer.now) }
    ensures { new.new ≡ pass_table (neighbours_in way offsets.now targets.now)
        masks.now layer.now new.old }
{
    if all_empty(masks) {
        return;
    }
    pass(way, masks, offsets, targets, layer, new);
}

// One bound more in one direction: the layer that reaches one link further, and the pass over it.
fn further(
    way: Direction,
    masks: &[u32],
    offsets: &[u16],
    targets: &[u16],
    old: &[u32],
    layer: &[u32],
    next: &mut [u32],
    new: &mut [u32],
)
    requires net { Net (length old.now) offsets.now targets.now }
    requires masks_len { (length masks.now ≡ 32) × (length layer.now ≡ length old.now)
        × (length next.old ≡ length old.now) × (length new.old ≡ length old.now) }
    ensures next_after { next.new ≡ next_layer (neighbours_in way offsets.now targets.now)
        old.now layer.now }
    ensures after { new.new ≡ pass_table (neighbours_in way offsets.now targets.now)
        masks.now next.new new.old }
{
    widen(way, offsets, targets, old, layer, next);
    pass_asked(way, masks, offsets, targets, next, new);
}

// The passes of one direction, for the bounds up to `top`. For bound 1 the ends of paths are the neighbours; for each
// further bound they are those of a layer that reaches one link further. The two tables for layers are scratch.
fn strike_way(
    way: Direction,
    top: usize,
    masks: &[u32],
    offsets: &[u16],
    targets: &[u16],
    old: &[u32],
    layer: &mut [u32],
    next: &mut [u32],
    new: &mut [u32],
)
    requires masks_len { (length masks.now ≡ 128) × Net (length old.now) offsets.now targets.now × (1 ≤ top)
        × (top ≤ 4) }
    requires layer_len { (length layer.old ≡ length old.now) × (length next.old ≡ length old.now)
        × (length new.old ≡ length old.now) }
    ensures { new.new ≡ passes (neighbours_in way offsets.now targets.now)
        masks.now old.now top new.old }
{
    // Bound by bound, not in a loop: the scratch tables take turns, and bound 2 begins from `old` without a copy.
    pass_asked(way, &masks[0..32], offsets, targets, old, new);
    if top < 2 {
        return;
    }
    further(way, &masks[32..64], offsets, targets, old, old, layer, new);
    if top < 3 {
        return;
    }
    further(way, &masks[64..96], offsets, targets, old, layer, next, new);
    if top < 4 {
        return;
    }
    further(
        way,
        &masks[96..128],
        offsets,
        targets,
        old,
        next,
        layer,
        new,
    );
}

// How many pairs a table has.
fn count(table: &[u32]) -> u32
    requires { length table.now ≤ 65536 }
    ensures { result ≡ pairs table.now }
{
    table.iter().map(|&set| base_bits::size(set)).sum()
}

// Writes the next set of each node into `new`, each from the table `old` whole, and returns how many pairs these sets
// have.
pub fn strike(
    masks: &[u32],
    offsets: &[u16],
    targets: &[u16],
    top: usize,
    old: &[u32],
    layer: &mut [u32],
    next: &mut [u32],
    new: &mut [u32],
) -> u32
    requires bounded_ready { BoundedReady (tables masks.now offsets.now targets.now) top old.now }
    requires layer_len { (length layer.old ≡ length old.now) × (length next.old ≡ length old.now)
        × (length new.old ≡ length old.now) }
    ensures { (new.new ≡ round_table
        (tables masks.now offsets.now targets.now) top old.now)
        × (result ≡ pairs new.new) }
{
    copy(old, new);
    strike_way(
        Direction::Forward,
        top,
        &masks[..WAY_MASKS],
        offsets,
        targets,
        old,
        layer,
        next,
        new,
    );
    strike_way(
        Direction::Backward,
        top,
        &masks[WAY_MASKS..BOUND_MASKS],
        offsets,
        targets,
        old,
        layer,
        next,
        new,
    );
    count(new)
}
