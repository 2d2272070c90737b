// Two files opened for their report: read, and matched on the whole board, so that the pieces of a long report read and
// match once.
#![tactic(auto)]

ghost use Rattle.std.specs.Prelude.{◌≡◌, length};
ghost use Rattle.graph.specs.Net.{NetRoom};
ghost use Rattle.file_format.specs.Layout.{in_edition};
ghost use Rattle.table.specs.Prepared.{tables};
ghost use Rattle.call_open.specs.Opened.{LinesRoom, SomePrepared, EveryOpened, Opened};

use call_prepare::{Reading, read_prepared};
use file_format::{Board, Editions, Pattern, Refusal, Role};
use file_pair::Pair;
use place_components::components;
use table::Ways;
use table_whole::match_tables;

// Leaves the whole board's match table and its components at the fronts of the tables, for the lines from the centre
// `from` on of two accepted files that were read and prepared; nothing is matched where no lines are left.
fn fill_lines(
    from: usize,
    read: Pair,
    pk: &[u32],
    nk: &[u32],
    masks: &[u32],
    offsets: &[u16],
    targets: &[u16],
    whole: &mut [u32],
    component_of: &mut [u16],
    sizes: &mut [u16],
)
    requires some_prepared { let t = tables masks.now offsets.now targets.now in SomePrepared read pk.now nk.now t }
    requires lines_room { LinesRoom whole.old component_of.old sizes.old }
    ensures { let t = tables masks.now offsets.now targets.now in EveryOpened from read pk.now nk.now t
        whole.new component_of.new sizes.new }
{
    let n = read.nodes;
    if n < from {
        return;
    }
    let parts = read.parts;
    let table = &mut whole[..n];
    match_tables(&pk[..parts], &nk[..n], masks, offsets, targets, table);
    components(
        masks,
        offsets,
        targets,
        table,
        &mut component_of[..n],
        &mut sizes[..n],
    );
}

// Opens two files for the pieces of their report from the centre `from` on: reads them, and leaves what the lines are
// put from, the whole board's match table and its components among it, at the fronts of the tables. Past the last line
// nothing is left to put, and nothing is matched.
pub fn open(
    from: usize,
    editions: Editions,
    pattern: &[u8],
    board: &[u8],
    masks: &mut [u32],
    offsets: &mut [u16],
    targets: &mut [u16],
    whole: &mut [u32],
    component_of: &mut [u16],
    sizes: &mut [u16],
) -> Result<Pair, Refusal>
    requires masks_len { (length masks.old ≡ 64) × NetRoom offsets.old targets.old }
    requires lines_room { LinesRoom whole.old component_of.old sizes.old }
    ensures { Opened from (in_edition editions.pattern pattern.now)
        (in_edition editions.board board.now) result
        (tables masks.new offsets.new targets.new)
        whole.new component_of.new sizes.new }
{
    let mut pk = [0u32; Pattern::MAX_NODES];
    let mut nk = [0u32; Board::MAX_NODES];
    let reading = Reading {
        role: Role::Pattern,
        ways: Ways::Both,
        editions,
    };
    let read = read_prepared(
        reading, pattern, board, &mut pk, &mut nk, masks, offsets, targets,
    )?;
    fill_lines(
        from,
        read,
        &pk,
        &nk,
        masks,
        offsets,
        targets,
        whole,
        component_of,
        sizes,
    );
    Ok(read)
}
