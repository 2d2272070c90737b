// The match table of a pattern with bounds on a whole board, both read.
#![tactic(auto)]

ghost use Rattle.std.specs.Prelude.{◌≡◌, length};
ghost use Rattle.file_format.specs.Circuit.{Bounded};
ghost use Rattle.file_format.specs.declared.Role.TheVariants as role;
ghost use Rattle.graph.specs.Circuit.{circuit};
ghost use Rattle.table.specs.Prepared.{tables};
ghost use Rattle.bounded.specs.Problem.{Bounds, BoundedAnswer};
ghost use Rattle.bounded_whole.specs.Whole.{SomeBoundedPattern, EveryRow};

use crate::largest::refine;
use bounded_prepare::{bound_masks, largest_bound};
use bounded_strike::BOUND_MASKS;
use file_format::Board;
use graph_neighbours::tables::{OFFSETS, TARGETS, neighbour_tables};
use table::rule::all_or_none;
use table::{Counts, Ways, counted};
use table_first::start;
use table_prepare::nodes::list_all;

pub mod largest;

// The last table of the row of a pattern with bounds on a board, from prepared masks and neighbour tables.
fn match_prepared(
    part_labels: &[u32],
    node_labels: &[u32],
    masks: &[u32],
    offsets: &[u16],
    targets: &[u16],
    top: usize,
    table: &mut [u32],
) -> Counts
    requires some_bounded_pattern { SomeBoundedPattern part_labels.now node_labels.now
        (tables masks.now offsets.now targets.now) top }
    requires table_len { length table.old ≡ length node_labels.now }
    ensures { EveryRow part_labels.now node_labels.now
        (tables masks.now offsets.now targets.now) top table.new result }
{
    let mut nodes = [0u16; Board::MAX_NODES];
    let mut spare = [0u32; Board::MAX_NODES];
    let mut layer = [0u32; Board::MAX_NODES];
    let mut next = [0u32; Board::MAX_NODES];
    let n = node_labels.len();
    list_all(&mut nodes[..n]);
    let started = start(&nodes[..n], part_labels, node_labels, table);
    let end = refine(
        masks,
        offsets,
        targets,
        top,
        table,
        &mut spare[..n],
        &mut layer[..n],
        &mut next[..n],
        started,
    );
    counted(started, end)
}

// The answer on a whole board: the same with masks and neighbour tables of its own, and with the table all 0 where some
// part is left without a node. Where every bound is 1, what is asked is what the pattern without bounds asks, and that
// is answered as it always was.
pub fn match_bounded(
    part_labels: &[u32],
    part_starts: &[u16],
    part_ends: &[u16],
    bounds: &[u16],
    node_labels: &[u32],
    node_starts: &[u16],
    node_ends: &[u16],
    table: &mut [u32],
) -> Counts
    requires bounded { Bounded role.Pattern (circuit part_labels.now part_starts.now part_ends.now) }
    requires bounds { Bounds (circuit part_labels.now part_starts.now part_ends.now) bounds.now }
    requires bounded_2 { Bounded role.Board (circuit node_labels.now node_starts.now node_ends.now) }
    requires table_len { length table.old ≡ length node_labels.now }
    ensures { BoundedAnswer (circuit part_labels.now part_starts.now
        part_ends.now) bounds.now
        (circuit node_labels.now node_starts.now node_ends.now)
        table.new result }
{
    let top = largest_bound(bounds);
    if top < 2 {
        let counts = table_whole::match_circuits(
            Ways::Both,
            part_labels,
            part_starts,
            part_ends,
            node_labels,
            node_starts,
            node_ends,
            table,
        );
        return all_or_none(part_labels.len(), table, counts);
    }
    let mut masks = [0u32; BOUND_MASKS];
    let mut offsets = [0u16; OFFSETS];
    let mut targets = [0u16; TARGETS];
    bound_masks(bounds, part_starts, part_ends, &mut masks);
    neighbour_tables(
        node_labels.len(),
        node_starts,
        node_ends,
        &mut offsets,
        &mut targets,
    );
    let counts = match_prepared(
        part_labels,
        node_labels,
        &masks,
        &offsets,
        &targets,
        top,
        table,
    );
    all_or_none(part_labels.len(), table, counts)
}
