// Breadth-first search over neighbour tables, level by level, directions ignored. Any tables will do in which each
// node's stretches have nodes only. The tables of distances have an entry for each node and no more, and so has the
// queue, which is scratch: the nodes reached so far, in order, `tail` of them.
#![tactic(auto)]

ghost use Rattle.std.specs.Prelude.{◌||◌, ◌≡◌, ◌<◌, eqb, length};
ghost use Rattle.base_lists.specs.List.{Below};
ghost use Rattle.graph.specs.Bfs.{visit, scan, start, bfs, adjacent, state_of, Searching, Searched, Found};
ghost use Rattle.graph.specs.Net.{Net};
ghost use Rattle.graph.specs.Search.{far};
ghost use Rattle.graph_search.specs.Until.{Standing, Advanced};

use base_lists::fill;
use graph::UNREACHED;
use graph_neighbours::neighbours::{Direction, neighbours_in};

// Looks at node v from a node at distance d - 1: where v is not reached yet, it is now, at distance d, and joins the
// queue.
pub fn visit(v: u16, d: u16, dist: &mut [u16], queue: &mut [u16], tail: usize) -> usize
    requires searching { Searching dist.old queue.old tail }
    requires v_in_bounds { v < length dist.old }
    requires d_lt_far { d < far }
    ensures { Searched dist.new queue.new result
        (visit d (state_of dist.old queue.old tail) v) }
{
    let i = v as usize;
    if dist[i] == UNREACHED {
        dist[i] = d;
        queue[tail] = v;
        tail + 1
    } else {
        tail
    }
}

// Looks at each node of a list of neighbours.
fn scan(part: &[u16], d: u16, dist: &mut [u16], queue: &mut [u16], from: usize) -> usize
    requires searching { Searching dist.old queue.old from }
    requires below { Below (length dist.old) part.now }
    requires d_lt_far { d < far }
    ensures { Searched dist.new queue.new result
        (scan d (state_of dist.old queue.old from) part.now) }
{
    let mut tail = from;
    for &v in part {
        tail = visit(v, d, dist, queue, tail);
    }
    tail
}

// Looks at the neighbours of node v: what it drives, then what drives it.
pub fn expand(
    offsets: &[u16],
    targets: &[u16],
    v: usize,
    d: u16,
    dist: &mut [u16],
    queue: &mut [u16],
    from: usize,
) -> usize
    requires net { Net (length dist.old) offsets.now targets.now }
    requires searching { Searching dist.old queue.old from }
    requires v_in_bounds { v < length dist.old }
    requires d_lt_far { d < far }
    ensures { Searched dist.new queue.new result
        (scan d (state_of dist.old queue.old from)
        (adjacent offsets.now targets.now v)) }
{
    let driven = neighbours_in(Direction::Forward, offsets, targets, v);
    let tail = scan(driven, d, dist, queue, from);
    let driving = neighbours_in(Direction::Backward, offsets, targets, v);
    scan(driving, d, dist, queue, tail)
}

// Where a search stands: of the `tail` nodes that it has reached the first `level` are at a distance less than `depth`,
// and the neighbours of the first `looked` of those have been looked at. The neighbours of the others are the nodes at
// distance `depth`.
#[derive(Clone, Copy)]
pub struct Frontier {
    pub looked: usize,
    pub level: usize,
    pub tail: usize,
    pub depth: u16,
}

// The centre alone is reached, and its neighbours are not looked at yet.
pub const CENTRE: Frontier = Frontier {
    looked: 0,
    level: 0,
    tail: 1,
    depth: 0,
};

// More nodes than there are: no search has reached as many.
pub const ALL: usize = 65536;

// Whether nothing is left to look at when a level is done: it has reached nothing, or the next is too far.
pub fn ended(level: usize, tail: usize, depth: u16, r: u16) -> bool
    ensures { result ≡ (eqb level tail || eqb depth r) }
{
    level == tail || depth == r
}

// Goes on with a search as far as distance r, level by level, and stops as soon as it has reached `size` nodes.
pub fn advance(
    offsets: &[u16],
    targets: &[u16],
    from: Frontier,
    r: u16,
    size: usize,
    dist: &mut [u16],
    queue: &mut [u16],
) -> Frontier
    requires net { Net (length dist.old) offsets.now targets.now }
    requires searching { Searching dist.old queue.old from.tail }
    requires standing { Standing r from }
    ensures searching_2 { Searching dist.new queue.new result.tail }
    ensures advanced { Advanced (adjacent offsets.now targets.now) r size from
        (state_of dist.old queue.old from.tail) result
        (state_of dist.new queue.new result.tail) }
{
    let mut looked = from.looked;
    let mut level = from.level;
    let mut tail = from.tail;
    let mut depth = from.depth;
    // A while: how many nodes there are to look at is known only as they are reached.
    while tail < size {
        if looked == level {
            if ended(level, tail, depth, r) {
                return Frontier {
                    looked,
                    level,
                    tail,
                    depth,
                };
            }
            level = tail;
            depth += 1;
        } else {
            let v = queue[looked] as usize;
            tail = expand(offsets, targets, v, depth, dist, queue, tail);
            looked += 1;
        }
    }
    Frontier {
        looked,
        level,
        tail,
        depth,
    }
}

// Sets the tables up for a search from the centre c, which alone is reached, and alone in the queue.
pub fn begin(c: u16, dist: &mut [u16], queue: &mut [u16])
    requires c_in_bounds { c < length dist.old }
    requires dist_len { length dist.old ≡ length queue.old }
    ensures { Searched dist.new queue.new 1 (start (length dist.old) c) }
{
    fill(dist, UNREACHED);
    let i = c as usize;
    dist[i] = 0;
    queue[0] = c;
}

// The distances of the nodes from the centre c, up to r: `dist[v]` is the distance of node v, and `UNREACHED` where it
// is more than r. Returns how many nodes it reached; they stand first in the queue, nearest first. Where all are
// reached it stops: no neighbour that is still to be looked at can change anything.
pub fn search(
    offsets: &[u16],
    targets: &[u16],
    c: u16,
    r: u16,
    dist: &mut [u16],
    queue: &mut [u16],
) -> usize
    requires net { Net (length dist.old) offsets.now targets.now }
    requires c_in_bounds { c < length dist.old }
    requires dist_len { length dist.old ≡ length queue.old }
    ensures { Found result dist.new queue.new
        (bfs (adjacent offsets.now targets.now) (length dist.old) c r) }
{
    begin(c, dist, queue);
    let n = dist.len();
    let end = advance(offsets, targets, CENTRE, r, n, dist, queue);
    end.tail
}
