// The components of a match graph: each node gets the number of its component, once for all; and those nodes of a
// centre's component that its ball has.
#![tactic(auto)]

ghost use Rattle.std.specs.Prelude.{not, ◌&&◌, ◌≡◌, ◌+◌, ◌≤◌, ◌<◌, eqb, length, take, replicate};
ghost use Rattle.base_lists.specs.List.{Below};
ghost use Rattle.graph.specs.Bfs.{adjacent};
ghost use Rattle.graph.specs.Net.{Net};
ghost use Rattle.graph.specs.Search.{far};
ghost use Rattle.table.specs.Fill.{fill_at};
ghost use Rattle.table.specs.Prepared.{tables};
ghost use Rattle.place.specs.Spread.{matched};
ghost use Rattle.place_components.specs.Components.{MatchTable, ComponentsBefore, Components, same_component};
ghost use Rattle.place_components.specs.Components.{Gathered};

use base_lists::fill;
use file_format::Board;
use graph::UNREACHED;
use graph_gather::{keep, search_until};
use place_component::component;

// Sets the entry of each node of a list to x. (place_mark stores bytes so: see there.)
fn store_each(nodes: &[u16], x: u16, table: &mut [u16])
    requires { Below (length table.old) nodes.now }
    ensures { table.new ≡ fill_at (λ v. x) nodes.now table.old }
{
    for &v in nodes {
        table[v as usize] = x;
    }
}

// Sets the entry of each node of a list to 0, and every other entry to `UNREACHED`.
pub fn mark(nodes: &[u16], dist: &mut [u16])
    requires { Below (length dist.old) nodes.now }
    ensures { dist.new ≡ fill_at (λ v. 0) nodes.now
        (replicate (length dist.old) far) }
{
    fill(dist, UNREACHED);
    store_each(nodes, 0, dist);
}

// Whether a component begins with node f: its set is not empty, and it has no number yet.
fn begins(set: u32, number: u16) -> bool
    ensures { result ≡ (not (eqb set 0) && eqb number far) }
{
    if set == 0 {
        return false;
    }
    number == UNREACHED
}

// Where a component begins with node f, its nodes get the number f, and under f stands how many they are. `dist` and
// `queue` are scratch.
fn number_from(
    masks: &[u32],
    offsets: &[u16],
    targets: &[u16],
    sets: &[u32],
    f: usize,
    dist: &mut [u16],
    queue: &mut [u16],
    component_of: &mut [u16],
    sizes: &mut [u16],
)
    requires cases { MatchTable (tables masks.now offsets.now targets.now) sets.now }
    requires f_in_bounds { f < length sets.now }
    requires dist_len { (length dist.old ≡ length sets.now) × (length queue.old ≡ length sets.now) }
    requires components_before { ComponentsBefore (length sets.now)
        (matched (tables masks.now offsets.now targets.now) sets.now) sets.now f component_of.old
        sizes.old }
    ensures { ComponentsBefore (length sets.now)
        (matched (tables masks.now offsets.now targets.now) sets.now)
        sets.now (f + 1) component_of.new sizes.new }
{
    if !begins(sets[f], component_of[f]) {
        return;
    }
    let c = f as u16;
    let k = component(masks, offsets, targets, sets, c, dist, queue);
    store_each(&queue[..k], c, component_of);
    sizes[f] = k as u16;
}

// Leaves in `component_of` for each node whose set is not empty the number of its component, and in `sizes` under the
// number how many nodes that has.
pub fn components(
    masks: &[u32],
    offsets: &[u16],
    targets: &[u16],
    sets: &[u32],
    component_of: &mut [u16],
    sizes: &mut [u16],
)
    requires cases { MatchTable (tables masks.now offsets.now targets.now) sets.now }
    requires sets_len_bound { length sets.now ≤ 512 }
    requires component_of_len { (length component_of.old ≡ length sets.now) × (length sizes.old ≡ length sets.now) }
    ensures { Components (length sets.now)
        (matched (tables masks.now offsets.now targets.now) sets.now)
        sets.now component_of.new sizes.new }
{
    let mut distances = [0u16; Board::MAX_NODES];
    let mut nodes = [0u16; Board::MAX_NODES];
    let n = sets.len();
    let dist = &mut distances[..n];
    let queue = &mut nodes[..n];
    fill(component_of, UNREACHED);
    for f in 0..n {
        number_from(
            masks,
            offsets,
            targets,
            sets,
            f,
            dist,
            queue,
            component_of,
            sizes,
        );
    }
}

// Leaves first in the queue those nodes with c's number that are at most r of the board's links away, or all `size`
// nodes that have it, which may be found nearer; and returns how many they are. `dist` is scratch.
pub fn gather(
    offsets: &[u16],
    targets: &[u16],
    component_of: &[u16],
    size: usize,
    c: u16,
    r: u16,
    dist: &mut [u16],
    queue: &mut [u16],
) -> usize
    requires net { Net (length dist.old) offsets.now targets.now }
    requires c_in_bounds { c < length dist.old }
    requires dist_len { (length dist.old ≡ length queue.old) × (length component_of.now ≡ length dist.old) }
    requires size_bound { size ≤ 65536 }
    ensures { (result ≤ length queue.new)
        × Gathered (adjacent offsets.now targets.now) (length dist.old) c r
        (same_component component_of.now c) size (take result queue.new) }
{
    let at = c as usize;
    let x = component_of[at];
    let k = search_until(offsets, targets, component_of, c, r, x, size, dist, queue);
    keep(component_of, x, k, queue)
}
