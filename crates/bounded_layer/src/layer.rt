// Layers: which parts occur within a number of links from each node. Each is made from the one before, so that a link
// is looked at once for each layer, whatever the number of paths.
ghost use Rattle.std.specs.Prelude.{◌≡◌, length};
ghost use Rattle.graph.specs.Net.{Net};
ghost use Rattle.graph_neighbours.specs.Lookup.{neighbours_in};
ghost use Rattle.bounded_layer.specs.Pass.{next_layer};

use base_bits::union_at;
use graph_neighbours::neighbours::{Direction, neighbours_in};

// The layer after one: what each node has, and what its neighbours in the direction have in the layer.
pub fn widen(
    direction: Direction,
    offsets: &[u16],
    targets: &[u16],
    old: &[u32],
    layer: &[u32],
    next: &mut [u32],
)
    requires net { Net (length old.now) offsets.now targets.now }
    requires layer_len { (length layer.now ≡ length old.now) × (length next.old ≡ length old.now) }
    ensures { next.new ≡ next_layer (neighbours_in direction offsets.now targets.now)
        old.now layer.now }
{
    for v in 0..next.len() {
        let near = neighbours_in(direction, offsets, targets, v);
        next[v] = old[v] | union_at(layer, near);
    }
}
