// Finding the place around a centre from a first table of its ball: the one way to a place, for a call that asks for
// one centre and for a report that asks for one after another. No file is read here, and nothing is tested but whether
// there is a place.
#![tactic(auto)]

ghost use Rattle.std.specs.Prelude.{◌≡◌, ◌≤◌, length, take};
ghost use Rattle.table.specs.Prepared.{tables};
ghost use Rattle.table.specs.Row.{pairs};
ghost use Rattle.place.specs.Find.{SoughtBySome, Finds};

use place::PlaceFound;
use place_component::component;
use table_largest::refine;

// Whether there is a place around c in the ball whose k nodes stand first in the queue, from a first table of the ball
// in `sets`, which has `started` pairs. Where there is one, `dist` is left with `UNREACHED` outside it, `sets` with the
// ball's table, and the queue with the place's nodes first. The content of `dist` and of `spare` does not matter
// before.
pub fn find(
    masks: &[u32],
    offsets: &[u16],
    targets: &[u16],
    c: u16,
    k: usize,
    started: u32,
    dist: &mut [u16],
    queue: &mut [u16],
    sets: &mut [u32],
    spare: &mut [u32],
) -> PlaceFound
    requires k_in_bounds { (k ≤ length queue.old)
        × SoughtBySome (tables masks.now offsets.now targets.now) c (take k queue.old) sets.old }
    requires started_value { started ≡ pairs sets.old }
    requires dist_len { (length dist.old ≡ length sets.old) × (length queue.old ≡ length sets.old)
        × (length spare.old ≡ length sets.old) }
    ensures { Finds (tables masks.now offsets.now targets.now) c
        (take k queue.old) sets.old dist.new queue.new sets.new
        result }
{
    let rest = refine(&queue[..k], masks, offsets, targets, sets, spare, started);
    let at = c as usize;
    if sets[at] == 0 {
        return PlaceFound { size: None, rest };
    }
    let size = component(masks, offsets, targets, sets, c, dist, queue);
    PlaceFound {
        size: Some(size),
        rest,
    }
}
