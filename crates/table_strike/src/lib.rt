// Striking at one node. A part stays at a node when each part that it drives occurs at some node that the node drives,
// and the same backward. Which parts occur there is one union of sets for each direction, so a look at a node costs its
// links and its pairs once.
#![tactic(auto)]

ghost use Rattle.std.specs.Prelude.{cond, ◌≡◌, ◌^◌, ◌<◌, length};
ghost use Rattle.base_bits.specs.Bits.{union_at};
ghost use Rattle.graph.specs.Net.{Net, driving};
ghost use Rattle.table.specs.Prepared.{succ_of, pred_of, tables, Ready};
ghost use Rattle.table_strike.specs.Strike.{survivors, all_empty, strike_node};

use base_bits::union_at;
use graph_neighbours::neighbours::{Direction, neighbours_in};
use table::{FORWARD_MASKS, MASKS};

// Whether every mask is empty: then nothing is asked for in their direction.
pub fn all_empty(masks: &[u32]) -> bool
    ensures { result ≡ all_empty masks.now }
{
    masks.iter().all(|&mask| mask == 0)
}

// The union of the sets of what drives node v, or nothing where nothing is asked for of it.
fn reach_back(one_way: bool, offsets: &[u16], targets: &[u16], sets: &[u32], v: usize) -> u32
    requires net { Net (length sets.now) offsets.now targets.now }
    requires v_in_bounds { v < length sets.now }
    ensures { result ≡ cond one_way 0
        (union_at sets.now (driving offsets.now targets.now v)) }
{
    if one_way {
        return 0;
    }
    union_at(
        sets,
        neighbours_in(Direction::Backward, offsets, targets, v),
    )
}

// Those parts of the set that drive only parts of f, and that only parts of b drive.
fn surviving(set: u32, succ: &[u32], pred: &[u32], f: u32, b: u32) -> u32
    requires set_bound { set < 2 ^ length succ.now }
    requires set_bound_2 { set < 2 ^ length pred.now }
    ensures { result ≡ survivors succ.now pred.now f b set }
{
    let mut kept: u32 = 0;
    let mut left = set;
    // A while: a set gives its parts from the least on by bit operations, and has no iterator.
    while left != 0 {
        let u = base_bits::first(left);
        let i = u as usize;
        if base_bits::subset(succ[i], f) && base_bits::subset(pred[i], b) {
            kept |= base_bits::single(u);
        }
        left = base_bits::without_first(left);
    }
    kept
}

// The same with the masks of both directions in one list.
pub fn parts_left(masks: &[u32], set: u32, f: u32, b: u32) -> u32
    requires { length masks.now ≡ 64 }
    ensures { result ≡ survivors (succ_of masks.now) (pred_of masks.now) f b set }
{
    surviving(
        set,
        &masks[..FORWARD_MASKS],
        &masks[FORWARD_MASKS..MASKS],
        f,
        b,
    )
}

// The next set of node v. Where forward links alone count, what drives the node is not looked at.
pub fn strike_node(
    one_way: bool,
    masks: &[u32],
    offsets: &[u16],
    targets: &[u16],
    old: &[u32],
    v: usize,
) -> u32
    requires one_way_value { one_way ≡ all_empty (pred_of masks.now) }
    requires ready { Ready (tables masks.now offsets.now targets.now) old.now }
    requires v_in_bounds { v < length old.now }
    ensures { result ≡ strike_node (tables masks.now offsets.now targets.now)
        old.now v }
{
    let set = old[v];
    if set == 0 {
        return 0;
    }
    let f = union_at(old, neighbours_in(Direction::Forward, offsets, targets, v));
    let b = reach_back(one_way, offsets, targets, old, v);
    parts_left(masks, set, f, b)
}
