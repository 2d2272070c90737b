// Striking on from a table, node by node, where links of the board may have been taken out. What is read here may be of
// any content: an index that is read is tested before it is used, and an entry that is no node's number is passed over,
// as that of a link which is out.
#![tactic(auto)]

ghost use Rattle.std.specs.Prelude.{◌≡◌, ◌+◌, ◌*◌, ◌/◌, ◌≤◌, ◌<◌, length, get_or, MatchOption};
ghost use Rattle.base_bits.specs.Bits.{union_at};
ghost use Rattle.graph.specs.Search.{far};
ghost use Rattle.graph_neighbours.specs.Lookup.{neighbours_in};
ghost use Rattle.session_strike.specs.Moves.{MovesRoom, beyond, moves_in, next_set_at, mark, mark_one, mark_all};
ghost use Rattle.session_strike.specs.Moves.{mark_beside, node_at, unmark, look_sets, look_marks, first_word, settled};
ghost use Rattle.session_strike.specs.Moves.{settled_from};

use base_bits::{first, single, without_first};
use graph::UNREACHED;
use graph_neighbours::neighbours::{Direction, neighbours};
use graph_neighbours::tables::{FORWARD_OFFSETS, FORWARD_TARGETS, OFFSETS, TARGETS};
use table_strike::parts_left;

// How many numbers have the marks of all nodes, 32 to a number.
const MARKS: usize = 16;

// The numbers of the links of node v in the direction asked for: of those that start there, or of those that end there.
fn links_of<'a>(direction: Direction, offsets: &[u16], numbers: &'a [u16], v: usize) -> &'a [u16]
    requires { (length offsets.now ≡ 1026) × (length numbers.now ≡ 8192) }
    ensures { result.now ≡ neighbours_in direction offsets.now numbers.now v }
{
    neighbours(
        direction,
        &offsets[0..FORWARD_OFFSETS],
        &numbers[0..FORWARD_TARGETS],
        &offsets[FORWARD_OFFSETS..OFFSETS],
        &numbers[FORWARD_TARGETS..TARGETS],
        v,
    )
}

// The other end of the link of a number: no node where the link is out.
fn end_of(number: u16, ends: &[u16]) -> usize
    ensures { result ≡ get_or ends.now number far }
{
    ends.get(number as usize).copied().unwrap_or(UNREACHED) as usize
}

// The set of node v: none where there is no such node.
fn set_at(sets: &[u32], v: usize) -> u32
    ensures { result ≡ get_or sets.now v 0 }
{
    sets.get(v).copied().unwrap_or(0)
}

// The union of the sets at the other ends of some links.
fn reach(numbers: &[u16], ends: &[u16], sets: &[u32]) -> u32
    ensures { result ≡ union_at sets.now (beyond ends.now numbers.now) }
{
    let mut union: u32 = 0;
    for &number in numbers {
        union |= set_at(sets, end_of(number, ends));
    }
    union
}

// The next set of node v.
fn next_set(
    masks: &[u32],
    offsets: &[u16],
    numbers: &[u16],
    ends: &[u16],
    sets: &[u32],
    v: usize,
) -> u32
    requires { MovesRoom masks.now offsets.now numbers.now ends.now }
    ensures { result ≡ next_set_at masks.now
        (moves_in offsets.now numbers.now ends.now) sets.now v }
{
    let set = set_at(sets, v);
    if set == 0 {
        return 0;
    }
    let f = reach(
        links_of(Direction::Forward, offsets, numbers, v),
        &ends[0..FORWARD_TARGETS],
        sets,
    );
    let b = reach(
        links_of(Direction::Backward, offsets, numbers, v),
        &ends[FORWARD_TARGETS..TARGETS],
        sets,
    );
    parts_left(masks, set, f, b)
}

// Marks node v.
fn mark(marks: &mut [u32], v: usize)
    requires { v / 32 < length marks.old }
    ensures { marks.new ≡ mark marks.old v }
{
    marks[v / 32] |= single((v % 32) as u32);
}

// Marks node w, where it is one of n nodes.
fn mark_one(n: usize, w: usize, marks: &mut [u32])
    requires { (n ≤ 512) × (length marks.old ≡ 16) }
    ensures { marks.new ≡ mark_one n marks.old w }
{
    if w < n {
        mark(marks, w);
    }
}

// Marks the nodes at the other ends of some links.
fn mark_ends(numbers: &[u16], ends: &[u16], n: usize, marks: &mut [u32])
    requires { (n ≤ 512) × (length marks.old ≡ 16) }
    ensures { marks.new ≡ mark_all n marks.old
        (beyond ends.now numbers.now) }
{
    for &number in numbers {
        mark_one(n, end_of(number, ends), marks);
    }
}

// Marks the nodes beside node v, either way.
fn mark_beside(
    offsets: &[u16],
    numbers: &[u16],
    ends: &[u16],
    v: usize,
    n: usize,
    marks: &mut [u32],
)
    requires offsets_len { (length offsets.now ≡ 1026) × (length numbers.now ≡ 8192) × (length ends.now ≡ 8192) }
    requires n_bound { (n ≤ 512) × (length marks.old ≡ 16) }
    ensures { marks.new ≡ mark_beside n
        (moves_in offsets.now numbers.now ends.now) marks.old v }
{
    mark_ends(
        links_of(Direction::Forward, offsets, numbers, v),
        &ends[0..FORWARD_TARGETS],
        n,
        marks,
    );
    mark_ends(
        links_of(Direction::Backward, offsets, numbers, v),
        &ends[FORWARD_TARGETS..TARGETS],
        n,
        marks,
    );
}

// Looks at node v: writes its next set, and where that is another set, marks the nodes beside it.
fn look(
    masks: &[u32],
    offsets: &[u16],
    numbers: &[u16],
    ends: &[u16],
    sets: &mut [u32],
    marks: &mut [u32],
    v: usize,
)
    requires moves_room { MovesRoom masks.now offsets.now numbers.now ends.now }
    requires sets_len_bound { (length sets.old ≤ 512) × (length marks.old ≡ 16) }
    ensures sets_after { sets.new ≡ look_sets masks.now
        (moves_in offsets.now numbers.now ends.now) sets.old v }
    ensures marks_after { marks.new ≡ look_marks masks.now
        (moves_in offsets.now numbers.now ends.now) sets.old
        marks.old v }
{
    let set = next_set(masks, offsets, numbers, ends, sets, v);
    if set == set_at(sets, v) {
        return;
    }
    if v < sets.len() {
        sets[v] = set;
        mark_beside(offsets, numbers, ends, v, sets.len(), marks);
    }
}

// The first word that marks a node.
fn find(marks: &[u32]) -> Option<usize>
    ensures { MatchOption result (first_word marks.now ≡ length marks.now)
        (λ j. (j ≡ first_word marks.now) × (j < length marks.now)) }
{
    marks.iter().position(|&word| word != 0)
}

// Takes the first mark of word j away, and returns its node.
fn unmark(marks: &mut [u32], j: usize) -> usize
    requires { (length marks.old ≡ 16) × (j < 16) × (0 < get_or marks.old j 0) }
    ensures { (marks.new ≡ unmark marks.old j) × (result ≡ node_at marks.old j) }
{
    let word = marks[j];
    marks[j] = without_first(word);
    32 * j + first(word) as usize
}

// Goes on from a table until no node is marked. A node that is looked at and changes marks the nodes beside it; nothing
// else is looked at.
fn strike_marked(
    masks: &[u32],
    offsets: &[u16],
    numbers: &[u16],
    ends: &[u16],
    sets: &mut [u32],
    marks: &mut [u32],
)
    requires moves_room { MovesRoom masks.now offsets.now numbers.now ends.now }
    requires sets_len_bound { (length sets.old ≤ 512) × (length marks.old ≡ 16) }
    ensures { sets.new ≡ settled masks.now
        (moves_in offsets.now numbers.now ends.now) sets.old
        marks.old }
{
    // A while: a look may mark nodes again, so how many looks come is not known.
    while let Some(j) = find(marks) {
        let v = unmark(marks, j);
        look(masks, offsets, numbers, ends, sets, marks, v);
    }
}

// Goes on from a table where no node but x and y can change at first, as when a link from x to y is taken out.
pub fn strike_from(
    masks: &[u32],
    offsets: &[u16],
    numbers: &[u16],
    ends: &[u16],
    sets: &mut [u32],
    x: usize,
    y: usize,
)
    requires moves_room { MovesRoom masks.now offsets.now numbers.now ends.now }
    requires sets_len_bound { length sets.old ≤ 512 }
    ensures { sets.new ≡ settled_from masks.now
        (moves_in offsets.now numbers.now ends.now) sets.old x y }
{
    let mut marks = [0u32; MARKS];
    let n = sets.len();
    mark_one(n, x, &mut marks);
    mark_one(n, y, &mut marks);
    strike_marked(masks, offsets, numbers, ends, sets, &mut marks);
}
