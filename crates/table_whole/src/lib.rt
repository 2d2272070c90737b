// The match table of a pattern on a whole board, both read.
#![tactic(auto)]

ghost use Rattle.std.specs.Prelude.{◌≡◌, length};
ghost use Rattle.file_format.specs.Circuit.{Bounded};
ghost use Rattle.file_format.specs.declared.Role.TheVariants as role;
ghost use Rattle.graph.specs.Circuit.{circuit};
ghost use Rattle.table.specs.Refine.{MatchedBy};
ghost use Rattle.table.specs.Row.{ways_of};
ghost use Rattle.table_whole.specs.Kinds.{SomeLinks, EveryMatched, EveryAnswered};
ghost use Rattle.table.specs.Prepared.{tables};

use file_format::Board;
use graph_neighbours::tables::{OFFSETS, TARGETS};
use table::rule::all_or_none;
use table::{Counts, MASKS, Ways, counted};
use table_first::start;
use table_largest::refine;
use table_prepare::lookups::prepare_along;
use table_prepare::nodes::list_all;

// The largest dual simulation of a pattern in a board, from prepared masks and neighbour tables.
pub fn match_tables(
    part_labels: &[u32],
    node_labels: &[u32],
    masks: &[u32],
    offsets: &[u16],
    targets: &[u16],
    table: &mut [u32],
) -> Counts
    requires some_links { SomeLinks part_labels.now node_labels.now (tables masks.now offsets.now targets.now) }
    requires table_len { length table.old ≡ length node_labels.now }
    ensures { EveryMatched part_labels.now node_labels.now
        (tables masks.now offsets.now targets.now) table.new result }
{
    let mut listed = [0u16; Board::MAX_NODES];
    let mut second = [0u32; Board::MAX_NODES];
    let n = node_labels.len();
    let nodes = &mut listed[..n];
    let spare = &mut second[..n];
    list_all(nodes);
    let started = start(nodes, part_labels, node_labels, table);
    let end = refine(nodes, masks, offsets, targets, table, spare, started);
    counted(started, end)
}

// The answer of a call on a whole board: the same, with the table all 0 where some part is left without a node.
pub fn match_whole(
    part_labels: &[u32],
    node_labels: &[u32],
    masks: &[u32],
    offsets: &[u16],
    targets: &[u16],
    table: &mut [u32],
) -> Counts
    requires some_links { SomeLinks part_labels.now node_labels.now (tables masks.now offsets.now targets.now) }
    requires table_len { length table.old ≡ length node_labels.now }
    ensures { EveryAnswered part_labels.now node_labels.now
        (tables masks.now offsets.now targets.now) table.new result }
{
    let counts = match_tables(part_labels, node_labels, masks, offsets, targets, table);
    all_or_none(part_labels.len(), table, counts)
}

// The last set of the row in the directions that count, with masks and neighbour tables of its own.
pub fn match_circuits(
    ways: Ways,
    part_labels: &[u32],
    part_starts: &[u16],
    part_ends: &[u16],
    node_labels: &[u32],
    node_starts: &[u16],
    node_ends: &[u16],
    table: &mut [u32],
) -> Counts
    requires bounded { let p = circuit part_labels.now part_starts.now part_ends.now in Bounded role.Pattern p }
    requires bounded_2 { let b = circuit node_labels.now node_starts.now node_ends.now in Bounded role.Board b }
    requires table_len { length table.old ≡ length node_labels.now }
    ensures { let p = circuit part_labels.now part_starts.now part_ends.now in let b = circuit node_labels.now node_starts.now node_ends.now in MatchedBy (ways_of ways) p b table.new result }
{
    let mut masks = [0u32; MASKS];
    let mut offsets = [0u16; OFFSETS];
    let mut targets = [0u16; TARGETS];
    prepare_along(
        ways,
        node_labels.len(),
        part_starts,
        part_ends,
        node_starts,
        node_ends,
        &mut masks,
        &mut offsets,
        &mut targets,
    );
    match_tables(part_labels, node_labels, &masks, &offsets, &targets, table)
}
