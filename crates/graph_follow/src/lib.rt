// Following links to nodes by their sets, a number of at most 32 bits each. Nodes that are reached are marked and
// listed once, as in a search.
#![tactic(auto)]

ghost use Rattle.std.specs.Prelude.{◌≡◌, ◌<◌, length};
ghost use Rattle.base_lists.specs.List.{Below};
ghost use Rattle.graph.specs.Bfs.{scan, level, state_of, Searching, Searched};
ghost use Rattle.graph.specs.Net.{Net};
ghost use Rattle.graph.specs.Search.{far};
ghost use Rattle.graph_follow.specs.Follow.{meeting, look, nodes_beside};

use graph_neighbours::neighbours::{Direction, neighbours_in};
use graph_search::visit;

// Every number: a set meets it unless it is empty.
const ANY: u32 = 4294967295;

// Looks at node v along a link: it is reached now, at distance d, where its set has a part of `set`.
fn look(
    v: u16,
    set: u32,
    sets: &[u32],
    d: u16,
    dist: &mut [u16],
    queue: &mut [u16],
    tail: usize,
) -> usize
    requires searching { Searching dist.old queue.old tail }
    requires v_in_bounds { v < length dist.old }
    requires sets_len { length sets.now ≡ length dist.old }
    requires d_lt_far { d < far }
    ensures { Searched dist.new queue.new result
        (look d set sets.now (state_of dist.old queue.old tail) v) }
{
    let i = v as usize;
    if base_bits::meets(set, sets[i]) {
        return visit(v, d, dist, queue, tail);
    }
    tail
}

// Looks at each node of a list of neighbours.
pub fn follow(
    part: &[u16],
    set: u32,
    sets: &[u32],
    d: u16,
    dist: &mut [u16],
    queue: &mut [u16],
    from: usize,
) -> usize
    requires searching { Searching dist.old queue.old from }
    requires below { Below (length dist.old) part.now }
    requires sets_len { length sets.now ≡ length dist.old }
    requires d_lt_far { d < far }
    ensures { Searched dist.new queue.new result
        (scan d (state_of dist.old queue.old from)
        (meeting set sets.now part.now)) }
{
    let mut tail = from;
    for &v in part {
        tail = look(v, set, sets, d, dist, queue, tail);
    }
    tail
}

// Lists the nodes beside v, either way, whose sets are not empty.
fn wake_beside(
    offsets: &[u16],
    targets: &[u16],
    sets: &[u32],
    v: usize,
    marks: &mut [u16],
    todo: &mut [u16],
    from: usize,
) -> usize
    requires searching { Searching marks.old todo.old from }
    requires net { Net (length sets.now) offsets.now targets.now }
    requires sets_len { length sets.now ≡ length marks.old }
    requires v_in_bounds { v < length sets.now }
    ensures { Searched marks.new todo.new result
        (scan 0 (state_of marks.old todo.old from)
        (nodes_beside offsets.now targets.now sets.now v)) }
{
    let tail = follow(
        neighbours_in(Direction::Forward, offsets, targets, v),
        ANY,
        sets,
        0,
        marks,
        todo,
        from,
    );
    follow(
        neighbours_in(Direction::Backward, offsets, targets, v),
        ANY,
        sets,
        0,
        marks,
        todo,
        tail,
    )
}

// Lists the nodes beside those of a list whose sets are not empty, each once, and returns how many they are.
pub fn list_beside(
    changed: &[u16],
    offsets: &[u16],
    targets: &[u16],
    sets: &[u32],
    marks: &mut [u16],
    todo: &mut [u16],
) -> usize
    requires searching { Searching marks.old todo.old 0 }
    requires net { Net (length sets.now) offsets.now targets.now }
    requires sets_len { length sets.now ≡ length marks.old }
    requires below { Below (length sets.now) changed.now }
    ensures { Searched marks.new todo.new result
        (level (nodes_beside offsets.now targets.now sets.now) 0
        (state_of marks.old todo.old 0) changed.now) }
{
    let mut tail = 0;
    for &v in changed {
        tail = wake_beside(offsets, targets, sets, v as usize, marks, todo, tail);
    }
    tail
}
