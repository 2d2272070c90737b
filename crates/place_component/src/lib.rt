// The search along matching links, followed either way; what it reaches, as far as it goes, is the component of the
// centre. A link matches where some part of its end's set is driven by some part of its start's, so that one union of
// masks for each direction serves all links of a node, and each costs one test.
#![tactic(auto)]

ghost use Rattle.std.specs.Prelude.{◌≡◌, ◌≤◌, ◌<◌, length};
ghost use Rattle.graph.specs.Bfs.{scan, bfs, state_of, Searching, Searched, Found};
ghost use Rattle.graph.specs.Search.{far};
ghost use Rattle.graph_search.specs.Until.{Until};
ghost use Rattle.table.specs.Prepared.{tables, Ready};
ghost use Rattle.place.specs.Spread.{matched};

use graph::UNREACHED;
use graph_follow::follow;
use graph_neighbours::neighbours::{Direction, neighbours_in};
use graph_search::{ALL, begin, ended};
use place::parts::{driven_parts, driving_parts};

// Looks at the neighbours of node v: what it drives, then what drives it.
pub fn expand(
    masks: &[u32],
    offsets: &[u16],
    targets: &[u16],
    sets: &[u32],
    v: usize,
    d: u16,
    dist: &mut [u16],
    queue: &mut [u16],
    from: usize,
) -> usize
    requires searching { Searching dist.old queue.old from }
    requires ready { Ready (tables masks.now offsets.now targets.now) sets.now }
    requires sets_len { length sets.now ≡ length dist.old }
    requires v_in_bounds { v < length dist.old }
    requires d_lt_far { d < far }
    ensures { Searched dist.new queue.new result
        (scan d (state_of dist.old queue.old from)
        (matched (tables masks.now offsets.now targets.now) sets.now v)) }
{
    let set = sets[v];
    let driven = driven_parts(masks, set);
    let driving = driving_parts(masks, set);
    let tail = follow(
        neighbours_in(Direction::Forward, offsets, targets, v),
        driven,
        sets,
        d,
        dist,
        queue,
        from,
    );
    follow(
        neighbours_in(Direction::Backward, offsets, targets, v),
        driving,
        sets,
        d,
        dist,
        queue,
        tail,
    )
}

// Searches from the centre c as far as distance r, level by level, and stops as soon as it has reached `size` nodes.
// Returns how many it has reached; they stand first in the queue. It goes on as `graph_search::advance` does.
pub fn reach(
    masks: &[u32],
    offsets: &[u16],
    targets: &[u16],
    sets: &[u32],
    c: u16,
    r: u16,
    size: usize,
    dist: &mut [u16],
    queue: &mut [u16],
) -> usize
    requires ready { Ready (tables masks.now offsets.now targets.now) sets.now }
    requires c_in_bounds { c < length dist.old }
    requires sets_len { (length sets.now ≡ length dist.old) × (length dist.old ≡ length queue.old) }
    ensures searching { Searching dist.new queue.new result }
    ensures until { Until (matched (tables masks.now offsets.now targets.now)
        sets.now) (length dist.old) c r (size ≤ result)
        (state_of dist.new queue.new result) }
{
    begin(c, dist, queue);
    let mut looked = 0;
    let mut level = 0;
    let mut tail = 1;
    let mut depth: u16 = 0;
    // A while: the queue grows as the loop runs, so no range is known.
    while tail < size {
        if looked == level {
            if ended(level, tail, depth, r) {
                return tail;
            }
            level = tail;
            depth += 1;
        } else {
            let v = queue[looked] as usize;
            tail = expand(masks, offsets, targets, sets, v, depth, dist, queue, tail);
            looked += 1;
        }
    }
    tail
}

// Leaves in `dist` an entry for each node, `UNREACHED` where it is not in the component of the centre c. Returns how
// many nodes that has; they stand first in the queue.
pub fn component(
    masks: &[u32],
    offsets: &[u16],
    targets: &[u16],
    sets: &[u32],
    c: u16,
    dist: &mut [u16],
    queue: &mut [u16],
) -> usize
    requires ready { Ready (tables masks.now offsets.now targets.now) sets.now }
    requires c_in_bounds { c < length dist.old }
    requires sets_len { (length sets.now ≡ length dist.old) × (length dist.old ≡ length queue.old) }
    ensures { Found result dist.new queue.new
        (bfs (matched (tables masks.now offsets.now targets.now) sets.now)
        (length dist.old) c far) }
{
    reach(
        masks, offsets, targets, sets, c, UNREACHED, ALL, dist, queue,
    )
}
