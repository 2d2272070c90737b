// The neighbour tables of a circuit, as they are handed on: one list has the offsets of the forward table and then
// those of the backward one, another the two link tables.
ghost use Rattle.std.specs.Prelude.{◌≡◌, ◌≤◌, T, ltb, length};
ghost use Rattle.base_lists.specs.List.{all};
ghost use Rattle.graph.specs.Net.{NetRoom, NetOf};
ghost use Rattle.graph_neighbours.specs.Grouped.{Grouped};

use crate::group::group;

// The entries of the two lists, and how many of them are the forward table's: room for 512 nodes and for 4,096 links
// each way.
pub const OFFSETS: usize = 1026;

pub const TARGETS: usize = 8192;

pub const FORWARD_OFFSETS: usize = 513;

pub const FORWARD_TARGETS: usize = 4096;

// Fills one half of each list by grouping `forward` by the links' starts, and the other by grouping `backward` by their
// ends.
pub fn group_both(
    n: usize,
    starts: &[u16],
    ends: &[u16],
    forward: &[u16],
    backward: &[u16],
    offsets: &mut [u16],
    targets: &mut [u16],
)
    requires net_room { NetRoom offsets.old targets.old }
    requires n_bound { n ≤ 512 }
    requires starts_len_bound { (length starts.now ≤ 4096) × (length ends.now ≤ 4096) }
    requires starts_len { (length starts.now ≡ length forward.now) × (length ends.now ≡ length backward.now) }
    requires t { T (all (λ v. ltb v n) starts.now) × T (all (λ v. ltb v n) ends.now) }
    ensures { Grouped n starts.now ends.now forward.now backward.now
        offsets.old targets.old offsets.new targets.new }
{
    group(
        n,
        starts,
        forward,
        &mut offsets[..FORWARD_OFFSETS],
        &mut targets[..FORWARD_TARGETS],
    );
    group(
        n,
        ends,
        backward,
        &mut offsets[FORWARD_OFFSETS..OFFSETS],
        &mut targets[FORWARD_TARGETS..TARGETS],
    );
}

// Fills the tables of n nodes whose links go from `starts` to `ends`.
pub fn neighbour_tables(
    n: usize,
    starts: &[u16],
    ends: &[u16],
    offsets: &mut [u16],
    targets: &mut [u16],
)
    requires net_room { NetRoom offsets.old targets.old }
    requires n_bound { n ≤ 512 }
    requires starts_len { (length starts.now ≡ length ends.now) × (length starts.now ≤ 4096) }
    requires t { T (all (λ v. ltb v n) starts.now) × T (all (λ v. ltb v n) ends.now) }
    ensures { NetOf n starts.now ends.now offsets.new targets.new }
{
    group_both(n, starts, ends, ends, starts, offsets, targets);
}
