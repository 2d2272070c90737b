// The least of a pattern's links that still says that there is no place around a centre, of circuits that were read.
#![tactic(auto)]

ghost use Rattle.std.specs.Prelude.{◌≡◌, ◌≤◌, ◌<◌, length};
ghost use Rattle.file_format.specs.Circuit.{Bounded};
ghost use Rattle.file_format.specs.Reply.{number_reply};
ghost use Rattle.file_format.specs.declared.Role.TheVariants as role;
ghost use Rattle.graph.specs.Circuit.{circuit};
ghost use Rattle.barring.specs.Outcome.{bar_around};
ghost use Rattle.barring_find.specs.Ball.{SomeNetted, EveryListed};
ghost use Rattle.barring_find.specs.Trial.{SomeTried, EveryAround};

use crate::dropping::drop_links;
use crate::trial::bars;
use file_format::{Board, File, Pattern, Refusal};
use graph::marked::count;
use graph_neighbours::tables::{OFFSETS, TARGETS, neighbour_tables};
use graph_search::search;
use place::Around;
use table_first::start;

pub mod dropping;
pub mod trial;

// A centre that has a place.
const PLACED: Refusal = Refusal {
    number: 15,
    file: File::Neither,
};

// Lists the nodes in the ball, and fills the first table with the pairs that agree there. Returns how many nodes there
// are.
fn first_in_ball(
    part_labels: &[u32],
    node_labels: &[u32],
    offsets: &[u16],
    targets: &[u16],
    around: Around,
    dist: &mut [u16],
    queue: &mut [u16],
    first: &mut [u32],
) -> usize
    requires part_labels_len_bound { (length part_labels.now ≤ 32) × SomeNetted node_labels.now offsets.now targets.now }
    requires centre_in_bounds { around.centre < length node_labels.now }
    requires dist_len { (length dist.old ≡ length node_labels.now) × (length queue.old ≡ length node_labels.now)
        × (length first.old ≡ length node_labels.now) }
    ensures { EveryListed part_labels.now node_labels.now offsets.now
        targets.now around queue.new first.new result }
{
    let k = search(offsets, targets, around.centre, around.radius, dist, queue);
    start(&queue[..k], part_labels, node_labels, first);
    k
}

// The kept links in a ball, and how many they are; or number 15 where the centre has a place, which leaves the bytes as
// they were. All links together bar exactly where it has none.
fn least_in_ball(
    nodes: &[u16],
    starts: &[u16],
    ends: &[u16],
    offsets: &[u16],
    targets: &[u16],
    first: &[u32],
    w: usize,
    out: &mut [u8],
) -> Result<usize, Refusal>
    requires some_tried { SomeTried starts.now ends.now offsets.now targets.now w nodes.now first.now }
    requires starts_in_bounds { length starts.now ≤ length out.old }
    ensures { EveryAround starts.now ends.now offsets.now targets.now
        w nodes.now first.now out.old out.new result }
{
    let all = [1u8; Pattern::MAX_LINKS];
    let m = starts.len();
    if !bars(nodes, starts, ends, offsets, targets, first, w, &all[..m]) {
        return Err(PLACED);
    }
    drop_links(
        nodes,
        starts,
        ends,
        offsets,
        targets,
        first,
        w,
        &mut out[..m],
    );
    Ok(count(&out[..m]))
}

// The kept links around a centre, in the ball at a radius: a byte for each link of the pattern, first in `out`, and how
// many are 1; or number 15. The board's neighbour tables, the ball and the pairs that agree in it are made once.
pub fn bar_circuits(
    part_labels: &[u32],
    part_starts: &[u16],
    part_ends: &[u16],
    node_labels: &[u32],
    node_starts: &[u16],
    node_ends: &[u16],
    around: Around,
    out: &mut [u8],
) -> Result<usize, Refusal>
    requires bounded { let p = circuit part_labels.now part_starts.now part_ends.now in let b = circuit node_labels.now node_starts.now node_ends.now in Bounded role.Pattern p × Bounded role.Board b }
    requires centre_in_bounds { around.centre < length node_labels.now }
    requires part_starts_in_bounds { length part_starts.now ≤ length out.old }
    ensures { let p = circuit part_labels.now part_starts.now part_ends.now in let b = circuit node_labels.now node_starts.now node_ends.now in record { reply = number_reply result; out = out.new }
        ≡ bar_around p b around.centre around.radius out.old }
{
    let mut offsets = [0u16; OFFSETS];
    let mut targets = [0u16; TARGETS];
    let mut dist = [0u16; Board::MAX_NODES];
    let mut queue = [0u16; Board::MAX_NODES];
    let mut first = [0u32; Board::MAX_NODES];
    let n = node_labels.len();
    neighbour_tables(n, node_starts, node_ends, &mut offsets, &mut targets);
    let k = first_in_ball(
        part_labels,
        node_labels,
        &offsets,
        &targets,
        around,
        &mut dist[..n],
        &mut queue[..n],
        &mut first[..n],
    );
    let c = around.centre;
    least_in_ball(
        &queue[..k],
        part_starts,
        part_ends,
        &offsets,
        &targets,
        &first[..n],
        c as usize,
        out,
    )
}
