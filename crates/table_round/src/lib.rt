// The two halves of a round of striking, over those nodes that may change in it: the next sets are listed first, each
// from the table whole, and then written.
#![tactic(auto)]

ghost use Rattle.std.specs.Prelude.{◌≡◌, ◌≤◌, ◌<◌, length};
ghost use Rattle.base_lists.specs.List.{Below};
ghost use Rattle.graph.specs.Search.{far};
ghost use Rattle.table.specs.Fill.{fill_at};
ghost use Rattle.table.specs.Prepared.{pred_of, tables, Ready};
ghost use Rattle.table.specs.Row.{pairs};
ghost use Rattle.table_strike.specs.Strike.{all_empty, strike_node};
ghost use Rattle.table_round.specs.Pending.{ChangeNoted, Pending, SetsPut};

use graph::UNREACHED;
use table_strike::strike_node;

// Lists node v with its next set, where that is not the set that it has.
fn note_change(v: u16, set: u32, old: u32, changed: &mut [u16], next: &mut [u32], k: usize) -> usize
    requires { (k < length changed.old) × (k < length next.old) }
    ensures { ChangeNoted v set old k changed.old next.old changed.new
        next.new result }
{
    if set == old {
        return k;
    }
    changed[k] = v;
    next[k] = set;
    k + 1
}

// Lists those nodes of a list that change, each with its next set from the table whole, and returns how many they are.
pub fn changes(
    one_way: bool,
    todo: &[u16],
    masks: &[u32],
    offsets: &[u16],
    targets: &[u16],
    old: &[u32],
    changed: &mut [u16],
    next: &mut [u32],
) -> usize
    requires one_way_value { one_way ≡ all_empty (pred_of masks.now) }
    requires ready { Ready (tables masks.now offsets.now targets.now) old.now }
    requires below { Below (length old.now) todo.now }
    requires todo_in_bounds { (length todo.now ≤ length changed.old) × (length todo.now ≤ length next.old) }
    ensures { Pending (strike_node (tables masks.now offsets.now targets.now)
        old.now) old.now todo.now changed.new next.new result }
{
    let mut k = 0;
    for &node in todo {
        let v = node as usize;
        let set = strike_node(one_way, masks, offsets, targets, old, v);
        k = note_change(node, set, old[v], changed, next, k);
    }
    k
}

// Writes sets at nodes, and returns how many pairs the table has then, where it has `started` before.
pub fn write(nodes: &[u16], sets: &[u32], table: &mut [u32], started: u32) -> u32
    requires sets_len { (length sets.now ≡ length nodes.now) × Below (length table.old) nodes.now }
    requires started_value { started ≡ pairs table.old }
    requires table_len_bound { length table.old ≤ 65536 }
    ensures { SetsPut nodes.now sets.now table.old table.new result }
{
    let mut kept = started;
    for (&node, &set) in nodes.iter().zip(sets) {
        let v = node as usize;
        kept = kept - base_bits::size(table[v]) + base_bits::size(set);
        table[v] = set;
    }
    kept
}

// Takes the marks of a list of nodes away.
pub fn unmark(todo: &[u16], marks: &mut [u16])
    requires { Below (length marks.old) todo.now }
    ensures { marks.new ≡ fill_at (λ v. far) todo.now marks.old }
{
    for &node in todo {
        marks[node as usize] = UNREACHED;
    }
}
