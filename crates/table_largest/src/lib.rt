// Striking round after round until a round strikes nothing: the largest dual simulation.
#![tactic(auto)]

ghost use Rattle.std.specs.Prelude.{◌≡◌, length, replicate};
ghost use Rattle.graph.specs.Search.{far};
ghost use Rattle.table.specs.Fill.{NodeList};
ghost use Rattle.table.specs.Prepared.{tables};
ghost use Rattle.table.specs.Row.{pairs};
ghost use Rattle.table.specs.Refine.{TablesKnown, Refines};
ghost use Rattle.table_largest.specs.Rounds.{Due, Settled};

use file_format::Board;
use graph::UNREACHED;
use graph_follow::list_beside;
use table::{FORWARD_MASKS, MASKS, Rest};
use table_round::{changes, unmark, write};
use table_strike::all_empty;

// Goes on from a table, which has `started` pairs, and a list of nodes that has each one that changes, until a round
// strikes nothing. Each round writes the next sets of the nodes that change, all from the last table, and then lists
// and looks at those beside them. The other tables are scratch, with an entry for each node; the marks are left as they
// were. Nothing else is touched, so that the work is in what changes.
pub fn settle(
    first: &[u16],
    masks: &[u32],
    offsets: &[u16],
    targets: &[u16],
    table: &mut [u32],
    started: u32,
    marks: &mut [u16],
    todo: &mut [u16],
    changed: &mut [u16],
    new: &mut [u32],
) -> Rest
    requires due { Due (tables masks.now offsets.now targets.now) table.old first.now }
    requires started_value { started ≡ pairs table.old }
    requires marks_value { (marks.old ≡ replicate (length table.old) far) × (length todo.old ≡ length table.old) }
    requires changed_len { (length changed.old ≡ length table.old) × (length new.old ≡ length table.old) }
    ensures settled { Settled (tables masks.now offsets.now targets.now)
        table.old table.new result.kept result.rounds }
    ensures marks_unchanged { marks.new ≡ marks.old }
{
    let mut kept = started;
    let mut rounds: u32 = 0;
    let one_way = all_empty(&masks[FORWARD_MASKS..MASKS]);
    let mut n = changes(one_way, first, masks, offsets, targets, table, changed, new);
    // A while: it ends with the round that strikes nothing, and how many come before it is not known.
    while n != 0 {
        kept = write(&changed[..n], &new[..n], table, kept);
        rounds += 1;
        let k = list_beside(&changed[..n], offsets, targets, table, marks, todo);
        let list = &todo[..k];
        n = changes(one_way, list, masks, offsets, targets, table, changed, new);
        unmark(list, marks);
    }
    Rest { kept, rounds }
}

// The largest dual simulation in the part of a circuit that has the listed nodes and the links between them, from a
// first table, which has `started` pairs. The content of `spare` does not matter. Where the first table is that of all
// pairs of equal kinds, the rounds are those of the row.
pub fn refine(
    nodes: &[u16],
    masks: &[u32],
    offsets: &[u16],
    targets: &[u16],
    table: &mut [u32],
    spare: &mut [u32],
    started: u32,
) -> Rest
    requires tables_known { TablesKnown (tables masks.now offsets.now targets.now) nodes.now table.old }
    requires node_list { NodeList (length table.old) nodes.now }
    requires spare_len { length spare.old ≡ length table.old }
    requires started_value { started ≡ pairs table.old }
    ensures { Refines (tables masks.now offsets.now targets.now)
        nodes.now table.old table.new result }
{
    let mut marks = [UNREACHED; Board::MAX_NODES];
    let mut todo = [0u16; Board::MAX_NODES];
    let mut changed = [0u16; Board::MAX_NODES];
    let n = table.len();
    settle(
        nodes,
        masks,
        offsets,
        targets,
        table,
        started,
        &mut marks[..n],
        &mut todo[..n],
        &mut changed[..n],
        spare,
    )
}
