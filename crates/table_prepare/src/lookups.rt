// What a round looks up: the pattern's masks, and the board's neighbour tables.
ghost use Rattle.std.specs.Prelude.{◌≡◌, ◌≤◌, T, ltb, length};
ghost use Rattle.base_lists.specs.List.{all, Below};
ghost use Rattle.graph.specs.Net.{NetRoom, NetOf};
ghost use Rattle.table.specs.Prepared.{MaskedBy};
ghost use Rattle.table.specs.Row.{ways_of};

use crate::masks::masks_along;
use graph_neighbours::tables::neighbour_tables;
use table::Ways;

// Fills what the rounds look up: the pattern's masks in the directions that count, and the neighbour tables of a board
// of n nodes.
pub fn prepare_along(
    ways: Ways,
    n: usize,
    part_starts: &[u16],
    part_ends: &[u16],
    node_starts: &[u16],
    node_ends: &[u16],
    masks: &mut [u32],
    offsets: &mut [u16],
    targets: &mut [u16],
)
    requires part_starts_len { (length part_starts.now ≡ length part_ends.now) × Below 32 part_starts.now
        × Below 32 part_ends.now }
    requires n_bound { (n ≤ 512) × (length node_starts.now ≡ length node_ends.now)
        × (length node_starts.now ≤ 4096) }
    requires t { T (all (λ v. ltb v n) node_starts.now) × T (all (λ v. ltb v n) node_ends.now) }
    requires masks_len { (length masks.old ≡ 64) × NetRoom offsets.old targets.old }
    ensures masked_by { MaskedBy (ways_of ways) part_starts.now part_ends.now
        masks.new }
    ensures net_of { NetOf n node_starts.now node_ends.now offsets.new
        targets.new }
{
    neighbour_tables(n, node_starts, node_ends, offsets, targets);
    masks_along(ways, part_starts, part_ends, masks);
}
