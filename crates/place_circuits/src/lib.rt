// The place of a pattern around a centre of a board, both read and prepared: from the kinds, and from the tables that
// are made of the links.
#![tactic(auto)]

ghost use Rattle.std.specs.Prelude.{◌≤◌, ◌<◌, length, get_or};
ghost use Rattle.table.specs.Prepared.{tables};
ghost use Rattle.place.specs.Outcome.{place_around};
ghost use Rattle.place_circuits.specs.Drawn.{placed_as, SomeDrawn, EveryDrawn};

use base_lists::copy;
use file_format::{Board, File, Refusal};
use place::{Around, NoPlace};
use place_ball::find_in_ball;
use place_mark::mark;
use table::Counts;

// No place around the centre.
const NO_PLACE: Refusal = Refusal {
    number: 9,
    file: File::Neither,
};

// The place around a centre: the ball's counts, and the four lent tables written; or number 9 with the ball's counts,
// which leaves those tables as they were. The last offset is how many links the board has.
pub fn place_circuits(
    part_labels: &[u32],
    node_labels: &[u32],
    masks: &[u32],
    offsets: &[u16],
    targets: &[u16],
    around: Around,
    nodes: &mut [u8],
    bytes: &mut [u8],
    table: &mut [u32],
    distances: &mut [u16],
) -> Result<Counts, NoPlace>
    requires some_drawn { SomeDrawn part_labels.now node_labels.now (tables masks.now offsets.now targets.now) }
    requires centre_in_bounds { around.centre < length node_labels.now }
    requires node_labels_in_bounds { (length node_labels.now ≤ length nodes.old) ×
        (get_or offsets.now (length node_labels.now) 0 ≤ length bytes.old) }
    requires node_labels_in_bounds_2 { (length node_labels.now ≤ length table.old) ×
        (length node_labels.now ≤ length distances.old) }
    ensures { EveryDrawn part_labels.now node_labels.now
        (tables masks.now offsets.now targets.now)
        (placed_as result nodes.new bytes.new table.new distances.new)
        (λ pattern board. place_around pattern board around.centre around.radius nodes.old
        bytes.old table.old distances.old) }
{
    let mut dist = [0u16; Board::MAX_NODES];
    let mut queue = [0u16; Board::MAX_NODES];
    let mut sets = [0u32; Board::MAX_NODES];
    let mut spare = [0u32; Board::MAX_NODES];
    let n = node_labels.len();
    let m = offsets[n] as usize;
    let ball = find_in_ball(
        part_labels,
        node_labels,
        masks,
        offsets,
        targets,
        around,
        &mut dist[..n],
        &mut queue[..n],
        &mut sets[..n],
        &mut spare[..n],
    );
    let counts = ball.counts;
    let Some(size) = ball.size else {
        return Err(NoPlace {
            refusal: NO_PLACE,
            counts,
        });
    };
    mark(
        masks,
        offsets,
        targets,
        &sets[..n],
        &queue[..size],
        &mut nodes[..n],
        &mut bytes[..m],
        &mut table[..n],
    );
    copy(&dist[..n], distances);
    Ok(counts)
}
