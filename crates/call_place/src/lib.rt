// The place calls: a pattern file, the board of another file and a centre, at the pattern's radius or at a radius
// given.
#![tactic(auto)]

ghost use Rattle.std.specs.Prelude.{◌≡◌};
ghost use Rattle.file_format.specs.Circuit.{circuit_of};
ghost use Rattle.file_format.specs.Layout.{in_edition};
ghost use Rattle.table.specs.Prepared.{tables};
ghost use Rattle.place.specs.Match.{radius_of};
ghost use Rattle.place_circuits.specs.Drawn.{placed_as, SomeDrawn, EveryDrawn};
ghost use Rattle.call_decide.specs.Decide.{radius_for};
ghost use Rattle.call_place.specs.Call.{place_on, place_at};

use call_decide::{Lengths, place_verdict, radius_for};
use call_prepare::{Reading, read_prepared};
use file_format::{Board, Editions, Pattern, Role};
use graph_neighbours::tables::{OFFSETS, TARGETS};
use place::{Around, Asked, NoPlace};
use place_circuits::place_circuits;
use table::{Counts, MASKS, Ways};

// What is asked of two files: around which node of the board, in which editions, and at which radius, `None` for the
// pattern's own.
#[derive(Clone, Copy)]
pub struct Question {
    pub centre: usize,
    pub editions: Editions,
    pub reach: Option<u16>,
}

// The call on two circuits that were read and prepared. Everything is tested, and the place found, before anything is
// written to the lent tables. The last offset is how many links the board has.
fn find_on(
    part_labels: &[u32],
    node_labels: &[u32],
    masks: &[u32],
    offsets: &[u16],
    targets: &[u16],
    asked: Asked,
    nodes: &mut [u8],
    link_bytes: &mut [u8],
    table: &mut [u32],
    distances: &mut [u16],
) -> Result<Counts, NoPlace>
    requires { SomeDrawn part_labels.now node_labels.now (tables masks.now offsets.now targets.now) }
    ensures { EveryDrawn part_labels.now node_labels.now
        (tables masks.now offsets.now targets.now)
        (placed_as result nodes.new link_bytes.new table.new distances.new)
        (λ pattern board. place_on asked.radius pattern board asked.centre nodes.old
        link_bytes.old table.old distances.old) }
{
    let n = node_labels.len();
    let m = offsets[n] as usize;
    let lent = Lengths {
        nodes: nodes.len(),
        links: link_bytes.len(),
        table: table.len(),
        distances: distances.len(),
    };
    let centre = asked.centre;
    place_verdict(n, m, centre, lent)?;
    let around = Around {
        centre: centre as u16,
        radius: asked.radius,
    };
    place_circuits(
        part_labels,
        node_labels,
        masks,
        offsets,
        targets,
        around,
        nodes,
        link_bytes,
        table,
        distances,
    )
}

// The place around the centre, at the pattern's radius or at one given: the ball's four counts, with a byte per board
// node and one per board link, 1 in the place and else 0, a set of parts per node, and each node's distance from the
// centre, 65,535 outside the ball, at the front of the four tables; or the refusal, which leaves them as they were.
pub fn place(
    question: Question,
    pattern: &[u8],
    board: &[u8],
    nodes: &mut [u8],
    link_bytes: &mut [u8],
    table: &mut [u32],
    distances: &mut [u16],
) -> Result<Counts, NoPlace>
    ensures { placed_as result nodes.new link_bytes.new table.new
        distances.new
        ≡ place_at (in_edition question.editions.pattern pattern.now)
        (in_edition question.editions.board board.now) question.centre
        (radius_for question.reach (radius_of (circuit_of (in_edition question.editions.pattern
        pattern.now))))
        nodes.old link_bytes.old table.old distances.old }
{
    let mut pk = [0u32; Pattern::MAX_NODES];
    let mut nk = [0u32; Board::MAX_NODES];
    let mut masks = [0u32; MASKS];
    let mut offsets = [0u16; OFFSETS];
    let mut targets = [0u16; TARGETS];
    let editions = question.editions;
    let read = read_prepared(
        Reading {
            role: Role::Pattern,
            ways: Ways::Both,
            editions,
        },
        pattern,
        board,
        &mut pk,
        &mut nk,
        &mut masks,
        &mut offsets,
        &mut targets,
    )?;
    let reach = question.reach;
    let asked = Asked {
        centre: question.centre,
        radius: radius_for(reach, read.radius),
    };
    let parts = read.parts;
    let n = read.nodes;
    find_on(
        &pk[..parts],
        &nk[..n],
        &masks,
        &offsets,
        &targets,
        asked,
        nodes,
        link_bytes,
        table,
        distances,
    )
}
