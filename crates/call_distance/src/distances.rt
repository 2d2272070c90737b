// The ball around a node of a board that was read, as a distance for each node.
ghost use Rattle.std.specs.Prelude.{◌≡◌, ◌++◌, ◌≤◌, ◌<◌, T, ltb, length, drop};
ghost use Rattle.base_lists.specs.List.{all};
ghost use Rattle.graph.specs.Search.{distances};
ghost use Rattle.file_format.specs.Circuit.{Bounded};
ghost use Rattle.file_format.specs.declared.Role.TheVariants as role;

use file_format::Board;
use graph_neighbours::tables::{OFFSETS, TARGETS, neighbour_tables};
use graph_search::search;

// The distances from node c, up to r, one for each entry of `dist`: 65,535 where it is more. The neighbour tables and
// the queue are its own.
fn measure(starts: &[u16], ends: &[u16], c: u16, r: u16, dist: &mut [u16])
    requires starts_len { (length starts.now ≡ length ends.now) × (length starts.now ≤ 4096) }
    requires t { T (all (λ v. ltb v (length dist.old)) starts.now) ×
        T (all (λ v. ltb v (length dist.old)) ends.now) }
    requires c_in_bounds { (c < length dist.old) × (length dist.old ≤ 512) }
    ensures { dist.new
        ≡ distances (length dist.old) starts.now ends.now c r }
{
    let mut offsets = [0u16; OFFSETS];
    let mut targets = [0u16; TARGETS];
    let mut queue = [0u16; Board::MAX_NODES];
    let n = dist.len();
    neighbour_tables(n, starts, ends, &mut offsets, &mut targets);
    search(&offsets, &targets, c, r, dist, &mut queue[..n]);
}

// The distances in the ball of radius r around node c of a board, first in `out`.
pub fn fill_ball(labels: &[u32], starts: &[u16], ends: &[u16], c: u16, r: u16, out: &mut [u16])
    requires bounded { Bounded role.Board (record { labels = labels.now; starts = starts.now; ends = ends.now }) }
    requires c_in_bounds { (c < length labels.now) × (length labels.now ≤ length out.old) }
    ensures { out.new ≡ distances (length labels.now) starts.now
        ends.now c r ++ drop (length labels.now) out.old }
{
    let n = labels.len();
    measure(starts, ends, c, r, &mut out[..n]);
}
