// Opening a session on two files. The pattern may lie in several bits, as in the match-table call.
#![tactic(auto)]

ghost use Rattle.file_format.specs.Layout.{in_edition};
ghost use Rattle.file_format.specs.Reply.{verdict_of};
ghost use Rattle.session.specs.State.{state, StateRoom};
ghost use Rattle.call_session.specs.Call.{OpenPromise};

use file_format::{Board, Editions, Pattern, Refusal, Role};
use file_pair::read_pair;
use session_open::{store_fixed, store_links};
use table::Ways;
use table_whole::match_circuits;

// Opens a session: reads both files, and fills the tables with the pattern's masks, the board's links and the largest
// dual simulation; or the refusal, which leaves them as they were.
pub fn open(
    editions: Editions,
    pattern: &[u8],
    board: &[u8],
    fixed: &mut [u32],
    offsets: &mut [u16],
    numbers: &mut [u16],
    ends: &mut [u16],
    sets: &mut [u32],
) -> Result<(), Refusal>
    requires { StateRoom (state fixed.old offsets.old numbers.old ends.old sets.old) }
    ensures { OpenPromise (in_edition editions.pattern pattern.now)
        (in_edition editions.board board.now)
        (state fixed.old offsets.old numbers.old ends.old
        sets.old) (verdict_of result)
        (state fixed.new offsets.new numbers.new ends.new
        sets.new) }
{
    let mut pk = [0u32; Pattern::MAX_NODES];
    let mut ps = [0u16; Pattern::MAX_LINKS];
    let mut pe = [0u16; Pattern::MAX_LINKS];
    let mut nk = [0u32; Board::MAX_NODES];
    let mut ns = [0u16; Board::MAX_LINKS];
    let mut ne = [0u16; Board::MAX_LINKS];
    let read = read_pair(
        Role::AnyPattern,
        editions,
        pattern,
        board,
        &mut pk,
        &mut ps,
        &mut pe,
        &mut nk,
        &mut ns,
        &mut ne,
    )?;
    let parts = read.parts;
    let joins = read.joins;
    let n = read.nodes;
    let m = read.links;
    store_fixed(&ps[..joins], &pe[..joins], parts, n, fixed);
    store_links(n, &ns[..m], &ne[..m], offsets, numbers, ends);
    match_circuits(
        Ways::Both,
        &pk[..parts],
        &ps[..joins],
        &pe[..joins],
        &nk[..n],
        &ns[..m],
        &ne[..m],
        &mut sets[..n],
    );
    Ok(())
}
