// Finding in the ball around a centre of a board, from the kinds, and from the tables that are made of the links.
#![tactic(auto)]

ghost use Rattle.std.specs.Prelude.{◌≡◌, ◌<◌, length};
ghost use Rattle.table.specs.Prepared.{tables};
ghost use Rattle.place_ball.specs.Ball.{SomeTabled, EveryPlaced};

use file_format::Board;
use graph_search::search;
use place::Around;
use place_around::find;
use table::{Counts, counted};
use table_first::start;

// How many nodes the place in a ball has, if there is one, and the ball's counts.
#[derive(Clone, Copy)]
pub struct InBall {
    pub size: Option<usize>,
    pub counts: Counts,
}

// Finds the place from the p pairs of equal kinds in the ball, of k nodes, and leaves the ball's distances in `dist`.
// The searches clear their entries whole, and the first table and the rounds both tables of sets; all other work is in
// the ball.
pub fn find_in_ball(
    part_labels: &[u32],
    node_labels: &[u32],
    masks: &[u32],
    offsets: &[u16],
    targets: &[u16],
    around: Around,
    dist: &mut [u16],
    queue: &mut [u16],
    sets: &mut [u32],
    spare: &mut [u32],
) -> InBall
    requires some_tabled { SomeTabled part_labels.now node_labels.now (tables masks.now offsets.now targets.now) }
    requires centre_in_bounds { around.centre < length node_labels.now }
    requires dist_len { (length dist.old ≡ length node_labels.now)
        × (length queue.old ≡ length node_labels.now) }
    requires sets_len { (length sets.old ≡ length node_labels.now)
        × (length spare.old ≡ length node_labels.now) }
    ensures { EveryPlaced part_labels.now node_labels.now
        (tables masks.now offsets.now targets.now) around dist.new
        queue.new sets.new result }
{
    let mut joined = [0u16; Board::MAX_NODES];
    let n = node_labels.len();
    let apart = &mut joined[..n];
    let c = around.centre;
    let k = search(offsets, targets, c, around.radius, dist, queue);
    let p = start(&queue[..k], part_labels, node_labels, sets);
    let place = find(masks, offsets, targets, c, k, p, apart, queue, sets, spare);
    let rest = place.rest;
    InBall {
        size: place.size,
        counts: counted(p, rest),
    }
}
