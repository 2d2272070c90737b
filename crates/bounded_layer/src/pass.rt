// One pass, for one direction and one bound: a part stays at a node when each part that it has a link of this bound to
// occurs at the end of some path from the node.
ghost use Rattle.std.specs.Prelude.{◌≡◌, ◌^◌, ◌<◌, length};
ghost use Rattle.base_bits.specs.Bits.{union_at};
ghost use Rattle.graph.specs.Net.{Net};
ghost use Rattle.graph_neighbours.specs.Lookup.{neighbours_in};
ghost use Rattle.bounded_layer.specs.Pass.{kept_within, pass_table};

use base_bits::union_at;
use graph_neighbours::neighbours::{Direction, neighbours_in};

// Those parts of the set whose mask lies within f.
fn covered(set: u32, masks: &[u32], f: u32) -> u32
    requires { set < 2 ^ length masks.now }
    ensures { result ≡ kept_within masks.now f set }
{
    let mut kept: u32 = 0;
    let mut left = set;
    // A while: each turn takes the lowest of the bits that are left.
    while left != 0 {
        let u = base_bits::first(left);
        if base_bits::subset(masks[u as usize], f) {
            kept = kept | base_bits::single(u);
        }
        left = base_bits::without_first(left);
    }
    kept
}

// What is left of the set of node v. The layer has, at each neighbour, the parts at the ends of the rest of the paths
// through it.
fn pass_node(
    direction: Direction,
    masks: &[u32],
    offsets: &[u16],
    targets: &[u16],
    layer: &[u32],
    v: usize,
    set: u32,
) -> u32
    requires { (length masks.now ≡ 32) × Net (length layer.now) offsets.now targets.now
        × (v < length layer.now) }
    ensures { result ≡ kept_within masks.now
        (union_at layer.now (neighbours_in direction offsets.now targets.now v)) set }
{
    if set == 0 {
        return 0;
    }
    let f = union_at(layer, neighbours_in(direction, offsets, targets, v));
    covered(set, masks, f)
}

// What is left of each set of the table.
pub fn pass(
    direction: Direction,
    masks: &[u32],
    offsets: &[u16],
    targets: &[u16],
    layer: &[u32],
    new: &mut [u32],
)
    requires { (length masks.now ≡ 32) × Net (length layer.now) offsets.now targets.now
        × (length new.old ≡ length layer.now) }
    ensures { new.new ≡ pass_table (neighbours_in direction offsets.now targets.now)
        masks.now layer.now new.old }
{
    for v in 0..new.len() {
        let set = new[v];
        new[v] = pass_node(direction, masks, offsets, targets, layer, v, set);
    }
}
