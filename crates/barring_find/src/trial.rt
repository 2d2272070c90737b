// Whether some of a pattern's links bar: the largest set of pairs that meets kinds and those links alone has no pair
// with the centre.
ghost use Rattle.std.specs.Prelude.{◌≡◌, ◌≤◌, ◌<◌, length, take};
ghost use Rattle.base_lists.specs.List.{Below};
ghost use Rattle.graph.specs.Chosen.{picked};
ghost use Rattle.table.specs.Prepared.{tables, Masked};
ghost use Rattle.barring_find.specs.Trial.{SomeBegun, EveryEmpty, SomeTried, EveryBars};

use file_format::{Board, Pattern};
use graph::marked::choose;
use table::MASKS;
use table_first::copy;
use table_largest::refine;
use table_prepare::masks::pattern_masks;

// Copies the entries whose byte is 1, in their order, to the front of `out`, and returns how many there are.
fn chosen_of(xs: &[u16], marks: &[u8], out: &mut [u16]) -> usize
    requires { (length xs.now ≡ length marks.now) × (length xs.now ≤ length out.old) }
    ensures { (result ≤ length out.new)
        × (take result out.new ≡ picked marks.now xs.now) }
{
    base_lists::copy(xs, out);
    let m = marks.len();
    choose(marks, &mut out[..m])
}

// The masks of the links whose byte is 1.
fn chosen_masks(starts: &[u16], ends: &[u16], marks: &[u8], masks: &mut [u32])
    requires starts_len { (length starts.now ≡ length ends.now) × (length starts.now ≤ 256)
        × (length starts.now ≡ length marks.now) }
    requires below { Below 32 starts.now × Below 32 ends.now }
    requires masks_len { length masks.old ≡ 64 }
    ensures { Masked (picked marks.now starts.now)
        (picked marks.now ends.now) masks.new }
{
    let mut from = [0u16; Pattern::MAX_LINKS];
    let mut to = [0u16; Pattern::MAX_LINKS];
    let k = chosen_of(starts, marks, &mut from);
    let l = chosen_of(ends, marks, &mut to);
    pattern_masks(&from[..k], &to[..l], masks);
}

// Strikes from the pairs that agree, and says whether node w is in none that is left. The two tables of sets are
// scratch.
fn empty_at(
    nodes: &[u16],
    masks: &[u32],
    offsets: &[u16],
    targets: &[u16],
    first: &[u32],
    w: usize,
    sets: &mut [u32],
    spare: &mut [u32],
) -> bool
    requires some_begun { SomeBegun (tables masks.now offsets.now targets.now) nodes.now first.now }
    requires w_in_bounds { w < length first.now }
    requires sets_len { (length sets.old ≡ length first.now) × (length spare.old ≡ length first.now) }
    ensures { EveryEmpty (tables masks.now offsets.now targets.now)
        nodes.now first.now w result }
{
    let started = copy(nodes, first, sets);
    refine(nodes, masks, offsets, targets, sets, spare, started);
    sets[w] == 0
}

// Whether the links whose byte is 1 bar. The list has the nodes in the ball around w, and the first table the pairs
// that agree there.
pub fn bars(
    nodes: &[u16],
    starts: &[u16],
    ends: &[u16],
    offsets: &[u16],
    targets: &[u16],
    first: &[u32],
    w: usize,
    marks: &[u8],
) -> bool
    requires some_tried { SomeTried starts.now ends.now offsets.now targets.now w nodes.now first.now }
    requires starts_len { length starts.now ≡ length marks.now }
    ensures { EveryBars starts.now ends.now offsets.now targets.now w
        nodes.now first.now marks.now result }
{
    let mut masks = [0u32; MASKS];
    let mut sets = [0u32; Board::MAX_NODES];
    let mut spare = [0u32; Board::MAX_NODES];
    let n = first.len();
    chosen_masks(starts, ends, marks, &mut masks);
    empty_at(
        nodes,
        &masks,
        offsets,
        targets,
        first,
        w,
        &mut sets[..n],
        &mut spare[..n],
    )
}
