// Dropping links one after another while the rest still bars.
ghost use Rattle.std.specs.Prelude.{◌≡◌, length};
ghost use Rattle.barring_find.specs.Trial.{SomeTried, EveryLeast};

use crate::trial::bars;
use base_lists::fill;

// Starts from all links, goes through them in their order, and drops each one without which the rest still bars: a byte
// per link, 1 for kept.
pub fn drop_links(
    nodes: &[u16],
    starts: &[u16],
    ends: &[u16],
    offsets: &[u16],
    targets: &[u16],
    first: &[u32],
    w: usize,
    marks: &mut [u8],
)
    requires some_tried { SomeTried starts.now ends.now offsets.now targets.now w nodes.now first.now }
    requires starts_len { length starts.now ≡ length marks.old }
    ensures { EveryLeast starts.now ends.now offsets.now targets.now
        w nodes.now first.now marks.new }
{
    fill(marks, 1);
    for i in 0..marks.len() {
        marks[i] = 0;
        if !bars(nodes, starts, ends, offsets, targets, first, w, marks) {
            marks[i] = 1;
        }
    }
}
