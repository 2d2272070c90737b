// What a check of a proposed place asks of a board: that the marked nodes are near, and that the marked links fill them.
#![tactic(auto)]

ghost use Rattle.std.specs.Prelude.{◌≡◌, ◌≤◌, ◌<◌, T, ltb, length};
ghost use Rattle.base_lists.specs.List.{all};
ghost use Rattle.graph.specs.Circuit.{circuit};
ghost use Rattle.graph.specs.Net.{NetRoom};
ghost use Rattle.graph.specs.Search.{ball};
ghost use Rattle.table.specs.Prepared.{tables};
ghost use Rattle.proposal.specs.Check.{in_row};
ghost use Rattle.place_ball.specs.Ball.{SomeTabled};
ghost use Rattle.proposal_check.specs.Tabled.{SomePattern, EveryFills, EveryJoined};

use file_format::Board;
use graph_neighbours::tables::neighbour_tables;
use graph_search::search;
use place::Around;
use place_around::find;
use proposal_marks::marks::{in_row, links_placed};
use table_first::start;

// Whether every marked node is in the ball around the centre at the radius, in the whole board. The neighbour tables
// are scratch.
pub fn near(
    starts: &[u16],
    ends: &[u16],
    around: Around,
    nodes: &[u8],
    offsets: &mut [u16],
    targets: &mut [u16],
) -> bool
    requires net_room { NetRoom offsets.old targets.old }
    requires nodes_len_bound { (length nodes.now ≤ 512) × (around.centre < length nodes.now) }
    requires starts_len { (length starts.now ≡ length ends.now) × (length starts.now ≤ 4096) }
    requires t { T (all (λ v. ltb v (length nodes.now)) starts.now) × T
        (all (λ v. ltb v (length nodes.now)) ends.now) }
    ensures { result ≡ in_row (ball (length nodes.now) starts.now ends.now
        around.centre around.radius) nodes.now }
{
    let n = nodes.len();
    let mut dist = [0u16; Board::MAX_NODES];
    let mut queue = [0u16; Board::MAX_NODES];
    neighbour_tables(n, starts, ends, offsets, targets);
    search(
        offsets,
        targets,
        around.centre,
        around.radius,
        &mut dist[..n],
        &mut queue[..n],
    );
    in_row(&dist[..n], nodes)
}

// Whether there is a place around c among all that links join to c: no walk needs more links than there are nodes.
// Where there is one, `dist` is left with `UNREACHED` outside it, and `sets` with the table of those nodes.
fn find_joined(
    part_labels: &[u32],
    node_labels: &[u32],
    masks: &[u32],
    offsets: &[u16],
    targets: &[u16],
    c: u16,
    dist: &mut [u16],
    queue: &mut [u16],
    sets: &mut [u32],
    spare: &mut [u32],
) -> bool
    requires some_tabled { SomeTabled part_labels.now node_labels.now (tables masks.now offsets.now targets.now) }
    requires node_labels_len_bound { (length node_labels.now ≤ 512) × (c < length node_labels.now) }
    requires dist_len { (length dist.old ≡ length node_labels.now)
        × (length queue.old ≡ length node_labels.now) }
    requires sets_len { (length sets.old ≡ length node_labels.now)
        × (length spare.old ≡ length node_labels.now) }
    ensures { EveryJoined part_labels.now node_labels.now
        (tables masks.now offsets.now targets.now) c dist.new
        sets.new result }
{
    let n = node_labels.len();
    let k = search(offsets, targets, c, n as u16, dist, queue);
    let p = start(&queue[..k], part_labels, node_labels, sets);
    let place = find(masks, offsets, targets, c, k, p, dist, queue, sets, spare);
    place.size.is_some()
}

// Whether the place around the centre in a board has all the marked nodes and all links.
pub fn fills(
    part_labels: &[u32],
    node_labels: &[u32],
    masks: &[u32],
    offsets: &[u16],
    targets: &[u16],
    starts: &[u16],
    ends: &[u16],
    c: u16,
    nodes: &[u8],
) -> bool
    requires some_pattern { SomePattern part_labels.now (circuit node_labels.now starts.now ends.now)
        (tables masks.now offsets.now targets.now) }
    requires starts_len { length starts.now ≡ length ends.now }
    requires node_labels_len_bound { (length node_labels.now ≤ 512) × (c < length node_labels.now) ×
        (length nodes.now ≡ length node_labels.now) }
    ensures { EveryFills part_labels.now
        (circuit node_labels.now starts.now ends.now)
        (tables masks.now offsets.now targets.now) c nodes.now result }
{
    let n = node_labels.len();
    let mut dist = [0u16; Board::MAX_NODES];
    let mut queue = [0u16; Board::MAX_NODES];
    let mut sets = [0u32; Board::MAX_NODES];
    let mut spare = [0u32; Board::MAX_NODES];
    let found = find_joined(
        part_labels,
        node_labels,
        masks,
        offsets,
        targets,
        c,
        &mut dist[..n],
        &mut queue[..n],
        &mut sets[..n],
        &mut spare[..n],
    );
    if !found {
        return false;
    }
    if !in_row(&dist[..n], nodes) {
        return false;
    }
    links_placed(masks, starts, ends, &dist[..n], &sets[..n])
}
