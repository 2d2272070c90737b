// The lines of one centre after another, and the last line, put at the front of a buffer.
#![tactic(auto)]

ghost use Rattle.std.specs.Prelude.{◌≡◌, ◌+◌, ◌≤◌, ◌<◌, length};
ghost use Rattle.base_text.specs.Text.{Names};
ghost use Rattle.table.specs.Prepared.{tables};
ghost use Rattle.place.specs.Spread.{matched};
ghost use Rattle.place_components.specs.Components.{Components};
ghost use Rattle.report.specs.Lines.{longest_line};
ghost use Rattle.report_locate.specs.Source.{SourceOfSome, EveryLine};
ghost use Rattle.report_centres.specs.Centres.{Kept, EveryWrote};

use base_text::make_names;
use file_format::Board;
use place::Around;
use report_locate::{Line, holds, put_new};
use report_pieces::{PutPiece, count_put, goes_on, put_last};
use report_texts::{Span, head_bytes, known, note_text, put_again};

// Where a piece goes on: with the centre `from`, before which `found` centres had a place, at the pattern's radius.
#[derive(Clone, Copy)]
pub struct Resume {
    pub radius: u16,
    pub from: usize,
    pub found: u16,
}

// A centre's line, nothing where there is no place around it. A centre that the whole board's table leaves empty has
// none. The text of a component is made once, and noted: `texts` has under a number where it begins, and
// `Board::MAX_NODES` further on where it ends. `dist` and `queue` are scratch.
fn put_centre(
    names: &[u32],
    masks: &[u32],
    offsets: &[u16],
    targets: &[u16],
    whole: &[u32],
    component_of: &[u16],
    sizes: &[u16],
    line: Line,
    dist: &mut [u16],
    queue: &mut [u16],
    texts: &mut [u32],
    out: &mut [u8],
) -> usize
    requires source_of_some { let t = tables masks.now offsets.now targets.now in SourceOfSome t whole.now line.around.radius }
    requires components { let t = tables masks.now offsets.now targets.now in Components (length whole.now) (matched t whole.now)
        whole.now component_of.now sizes.now }
    requires centre_in_bounds { line.around.centre < length whole.now }
    requires dist_len { (length dist.old ≡ length whole.now) × (length queue.old ≡ length whole.now) }
    requires names { Names names.now × (length whole.now ≤ length names.now) }
    requires longest_line_in_bounds { line.at + longest_line ≤ length out.old }
    requires kept { let t = tables masks.now offsets.now targets.now in Kept t whole.now component_of.now out.old line.at texts.old }
    ensures every_line { let t = tables masks.now offsets.now targets.now in EveryLine t whole.now line.around
        out.old line.at out.new result }
    ensures kept_2 { let t = tables masks.now offsets.now targets.now in Kept t whole.now component_of.now
        out.new result texts.new }
{
    let c = line.around.centre as usize;
    if whole[c] == 0 {
        return line.at;
    }
    let number = component_of[c] as usize;
    let size = sizes[number] as usize;
    let ball = holds(
        masks,
        offsets,
        targets,
        whole,
        component_of,
        size,
        line.around,
        dist,
        queue,
    );
    let text = known(ball.all, number, texts);
    if text.to != 0 {
        return put_again(c, text, out, line.at);
    }
    let end = put_new(
        names, masks, offsets, targets, whole, ball, line, dist, queue, out,
    );
    if ball.all {
        let from = line.at + head_bytes(c);
        note_text(number, Span { from, to: end }, texts);
    }
    end
}

// The lines of the centres from where a piece goes on, as long as there is room for the longest line, and the last line
// where the centres are done.
pub fn put_lines(
    masks: &[u32],
    offsets: &[u16],
    targets: &[u16],
    whole: &[u32],
    component_of: &[u16],
    sizes: &[u16],
    resume: Resume,
    out: &mut [u8],
) -> PutPiece
    requires source_of_some { let t = tables masks.now offsets.now targets.now in SourceOfSome t whole.now resume.radius }
    requires components { let t = tables masks.now offsets.now targets.now in Components (length whole.now) (matched t whole.now)
        whole.now component_of.now sizes.now }
    ensures { let t = tables masks.now offsets.now targets.now in EveryWrote t whole.now resume out.old out.new result }
{
    let mut names = [0u32; Board::MAX_NODES];
    make_names(&mut names);
    let mut distances = [0u16; Board::MAX_NODES];
    let mut nodes = [0u16; Board::MAX_NODES];
    let n = whole.len();
    let dist = &mut distances[..n];
    let queue = &mut nodes[..n];
    let mut c = resume.from;
    let mut count = resume.found as usize;
    let mut texts = [0u32; 2 * Board::MAX_NODES];
    let mut at = 0;
    // A while: it ends sooner where no room is left, and a later piece goes on from the c that it ends with.
    while goes_on(c, n, at, out.len()) {
        let around = Around {
            centre: c as u16,
            radius: resume.radius,
        };
        let next = put_centre(
            &names,
            masks,
            offsets,
            targets,
            whole,
            component_of,
            sizes,
            Line { around, at },
            dist,
            queue,
            &mut texts,
            out,
        );
        count = count_put(count, at, next);
        at = next;
        c += 1;
    }
    let part = PutPiece {
        next: c,
        found: count,
        size: at,
    };
    put_last(part, n, out)
}
