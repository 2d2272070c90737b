// A search that stops as soon as it has reached enough nodes with a number. Each node has one, whatever it stands for.
#![tactic(auto)]

ghost use Rattle.std.specs.Prelude.{cond, ◌≡◌, ◌+◌, ◌≤◌, ◌<◌, eqb, length, get_or, take};
ghost use Rattle.base_lists.specs.List.{Below};
ghost use Rattle.graph.specs.Bfs.{adjacent, state_of, Searching};
ghost use Rattle.graph.specs.Net.{Net};
ghost use Rattle.graph_search.specs.Until.{Until};
ghost use Rattle.graph_gather.specs.Having.{having, numbered};

use graph_search::{CENTRE, advance, begin};

// One more, where the number is x.
fn count_equal(number: u16, x: u16, count: usize) -> usize
    requires { count < 65536 }
    ensures { result ≡ count + cond (eqb number x) 1 0 }
{
    if number == x {
        return count + 1;
    }
    count
}

// Moves those of the first k nodes that have the number x to the front of the queue, in their order. Returns how many
// they are.
pub fn keep(numbers: &[u16], x: u16, k: usize, queue: &mut [u16]) -> usize
    requires { (k ≤ length queue.old) × (length queue.old ≤ 65536)
        × Below (length numbers.now) (take k queue.old) }
    ensures upper_bound { result ≤ length queue.new }
    ensures queue_after { take result queue.new
        ≡ having (numbered numbers.now x) (take k queue.old) }
{
    let mut kept = 0;
    for i in 0..k {
        let v = queue[i];
        queue[kept] = v;
        kept = count_equal(numbers[v as usize], x, kept);
    }
    kept
}

// How many nodes of a list have the number x, where `count` of the first `from` have it.
fn count_from(numbers: &[u16], x: u16, from: usize, count: usize, nodes: &[u16]) -> usize
    requires from_in_bounds { (from ≤ length nodes.now) × (length nodes.now ≤ 65536)
        × Below (length numbers.now) nodes.now }
    requires count_value { count ≡ length (having (numbered numbers.now x) (take from nodes.now)) }
    ensures { result ≡ length (having (numbered numbers.now x) nodes.now) }
{
    let mut found = count;
    for i in from..nodes.len() {
        found = count_equal(numbers[nodes[i] as usize], x, found);
    }
    found
}

// Searches from c, which has the number x, as far as distance r, and stops as soon as `size` nodes that have the number
// are reached. Returns how many nodes are reached; they stand first in the queue. Numbers are looked at where the
// search has reached as many nodes more as are still wanted.
pub fn search_until(
    offsets: &[u16],
    targets: &[u16],
    numbers: &[u16],
    c: u16,
    r: u16,
    x: u16,
    size: usize,
    dist: &mut [u16],
    queue: &mut [u16],
) -> usize
    requires net { Net (length dist.old) offsets.now targets.now }
    requires c_in_bounds { c < length dist.old }
    requires dist_len { (length dist.old ≡ length queue.old) × (length numbers.now ≡ length dist.old) }
    requires c_value { (get_or numbers.now c 0 ≡ x) × (size ≤ 65536) }
    ensures searching { Searching dist.new queue.new result }
    ensures until { Until (adjacent offsets.now targets.now) (length dist.old) c r
        (size ≤ length (having (numbered numbers.now x) (take result queue.new)))
        (state_of dist.new queue.new result) }
{
    begin(c, dist, queue);
    let mut from = CENTRE;
    let mut count = 1;
    // A while: how many searches it takes shows only as they go.
    while count < size {
        let wanted = from.tail + (size - count);
        let to = advance(offsets, targets, from, r, wanted, dist, queue);
        if to.tail < wanted {
            return to.tail;
        }
        count = count_from(numbers, x, from.tail, count, &queue[..to.tail]);
        from = to;
    }
    from.tail
}
