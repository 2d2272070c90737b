// The place around a centre, from the centre's component on the whole board: how much of it the ball has, the place,
// and its line.
#![tactic(auto)]

ghost use Rattle.std.specs.Prelude.{◌≡◌, ◌+◌, ◌≤◌, ◌<◌, length, get_or};
ghost use Rattle.base_text.specs.Text.{Names};
ghost use Rattle.table.specs.Prepared.{tables};
ghost use Rattle.report.specs.Lines.{longest_line};
ghost use Rattle.report_locate.specs.Source.{SourceOfSome, CentreLabelled, BallHolds, EveryKnown, EveryLine};

use file_format::Board;
use place::Around;
use place_around::find;
use place_component::reach;
use place_components::{gather, mark};
use report::lines::put_line;
use table_first::copy;

// Components of at most so many nodes are searched along their matching links first, and not along all links of the
// board.
const FEW: usize = 64;

// How much of the centre's component on the whole board its ball has: all of it or not, and how many nodes, which stand
// first in a queue.
#[derive(Clone, Copy)]
pub struct ComponentHeld {
    pub all: bool,
    pub kept: usize,
}

// Whether the ball around a centre holds the whole of the centre's component, which has `size` nodes, and those of its
// nodes that the ball has: they are left first in the queue. `dist` is scratch.
pub fn holds(
    masks: &[u32],
    offsets: &[u16],
    targets: &[u16],
    whole: &[u32],
    component_of: &[u16],
    size: usize,
    around: Around,
    dist: &mut [u16],
    queue: &mut [u16],
) -> ComponentHeld
    requires source_of_some { let t = tables masks.now offsets.now targets.now in SourceOfSome t whole.now around.radius }
    requires centre_labelled { let t = tables masks.now offsets.now targets.now in CentreLabelled t whole.now component_of.now size around.centre }
    requires dist_len { (length dist.old ≡ length whole.now) × (length queue.old ≡ length whole.now) }
    ensures { let t = tables masks.now offsets.now targets.now in BallHolds t whole.now around queue.new result }
{
    let c = around.centre;
    let r = around.radius;
    if size <= FEW {
        let reached = reach(masks, offsets, targets, whole, c, r, size, dist, queue);
        if reached == size {
            return ComponentHeld {
                all: true,
                kept: size,
            };
        }
    }
    let kept = gather(offsets, targets, component_of, size, c, r, dist, queue);
    ComponentHeld {
        all: kept == size,
        kept,
    }
}

// Whether there is a place around a centre, of whose ball it is known how much of the centre's component it has. Where
// it has all, the place is the component with its matching links; else striking goes on in ball and component alone,
// from the whole board's sets: what lies outside the component supports nothing inside it. Where there is a place,
// `dist` is left with `UNREACHED` outside it, and `sets` with its sets. `queue` is scratch.
fn locate(
    masks: &[u32],
    offsets: &[u16],
    targets: &[u16],
    whole: &[u32],
    ball: ComponentHeld,
    around: Around,
    dist: &mut [u16],
    queue: &mut [u16],
    sets: &mut [u32],
) -> bool
    requires source_of_some { let t = tables masks.now offsets.now targets.now in SourceOfSome t whole.now around.radius }
    requires centre_in_bounds { (around.centre < length whole.now) × (get_or whole.now around.centre 0 ≡ 0 → ⊥) }
    requires ball_holds { let t = tables masks.now offsets.now targets.now in BallHolds t whole.now around queue.old ball }
    requires dist_len { (length dist.old ≡ length whole.now) × (length queue.old ≡ length whole.now)
        × (length sets.old ≡ length whole.now) }
    ensures { let t = tables masks.now offsets.now targets.now in EveryKnown t whole.now around dist.new sets.new result }
{
    let kept = ball.kept;
    if ball.all {
        mark(&queue[..kept], dist);
        base_lists::copy(whole, sets);
        return true;
    }
    let mut other = [0u32; Board::MAX_NODES];
    let spare = &mut other[..whole.len()];
    let started = copy(&queue[..kept], whole, sets);
    let place = find(
        masks,
        offsets,
        targets,
        around.centre,
        kept,
        started,
        dist,
        queue,
        sets,
        spare,
    );
    place.size.is_some()
}

// Where a line is to be put, and around which centre.
#[derive(Clone, Copy)]
pub struct Line {
    pub around: Around,
    pub at: usize,
}

// The line of a centre whose ball is known, nothing where there is no place around it. `dist` and `queue` are as that
// was found out with them, and scratch.
pub fn put_new(
    names: &[u32],
    masks: &[u32],
    offsets: &[u16],
    targets: &[u16],
    whole: &[u32],
    ball: ComponentHeld,
    line: Line,
    dist: &mut [u16],
    queue: &mut [u16],
    out: &mut [u8],
) -> usize
    requires source_of_some { let t = tables masks.now offsets.now targets.now in SourceOfSome t whole.now line.around.radius }
    requires centre_in_bounds { (line.around.centre < length whole.now)
        × (get_or whole.now line.around.centre 0 ≡ 0 → ⊥) }
    requires ball_holds { let t = tables masks.now offsets.now targets.now in BallHolds t whole.now line.around queue.old ball }
    requires dist_len { (length dist.old ≡ length whole.now) × (length queue.old ≡ length whole.now) }
    requires names { Names names.now × (length whole.now ≤ length names.now) }
    requires longest_line_in_bounds { line.at + longest_line ≤ length out.old }
    ensures { let t = tables masks.now offsets.now targets.now in EveryLine t whole.now line.around
        out.old line.at out.new result }
{
    let mut table = [0u32; Board::MAX_NODES];
    let sets = &mut table[..whole.len()];
    let there = locate(
        masks,
        offsets,
        targets,
        whole,
        ball,
        line.around,
        dist,
        queue,
        sets,
    );
    if !there {
        return line.at;
    }
    let c = line.around.centre as usize;
    put_line(names, masks, offsets, targets, dist, sets, c, out, line.at)
}
