// A pattern file and a board file, read for a search: their labels, and what matching looks up, made of their links.
#![tactic(auto)]

ghost use Rattle.std.specs.Prelude.{◌≡◌, length};
ghost use Rattle.graph.specs.Net.{NetRoom};
ghost use Rattle.file_format.specs.Layout.{in_edition};
ghost use Rattle.table.specs.Prepared.{tables};
ghost use Rattle.table.specs.Row.{ways_of};
ghost use Rattle.call_prepare.specs.Read.{AsPattern, PairPrepared};

use file_format::{Board, Editions, Pattern, Refusal, Role};
use file_pair::{Pair, read_pair};
use table::Ways;
use table_prepare::lookups::prepare_along;

// How two files are read for a search: what the first is read as, the directions that count, and the edition of each.
#[derive(Clone, Copy)]
pub struct Reading {
    pub role: Role,
    pub ways: Ways,
    pub editions: Editions,
}

// Reads both files, and makes of their links what the search looks up; or the first refusal. The labels are left at the
// front of their tables.
pub fn read_prepared(
    reading: Reading,
    pattern: &[u8],
    board: &[u8],
    pk: &mut [u32],
    nk: &mut [u32],
    masks: &mut [u32],
    offsets: &mut [u16],
    targets: &mut [u16],
) -> Result<Pair, Refusal>
    requires as_pattern { AsPattern reading.role }
    requires pk_len { (length pk.old ≡ 32) × (length nk.old ≡ 512) }
    requires masks_len { (length masks.old ≡ 64) × NetRoom offsets.old targets.old }
    ensures { PairPrepared reading.role (ways_of reading.ways)
        (in_edition reading.editions.pattern pattern.now)
        (in_edition reading.editions.board board.now) result pk.new nk.new
        (tables masks.new offsets.new targets.new) }
{
    let role = reading.role;
    let editions = reading.editions;
    let mut ps = [0u16; Pattern::MAX_LINKS];
    let mut pe = [0u16; Pattern::MAX_LINKS];
    let mut ns = [0u16; Board::MAX_LINKS];
    let mut ne = [0u16; Board::MAX_LINKS];
    let read = read_pair(
        role, editions, pattern, board, pk, &mut ps, &mut pe, nk, &mut ns, &mut ne,
    )?;
    let joins = read.joins;
    let m = read.links;
    let ways = reading.ways;
    prepare_along(
        ways,
        read.nodes,
        &ps[..joins],
        &pe[..joins],
        &ns[..m],
        &ne[..m],
        masks,
        offsets,
        targets,
    );
    Ok(read)
}
