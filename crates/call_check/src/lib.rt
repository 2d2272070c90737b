// The call that checks a place from elsewhere: a pattern file, a board file, a centre, a byte per node and a byte per
// link.
#![tactic(auto)]

ghost use Rattle.std.specs.Prelude.{◌≡◌};
ghost use Rattle.file_format.specs.Circuit.{Drawn};
ghost use Rattle.file_format.specs.Layout.{in_edition};
ghost use Rattle.graph.specs.Circuit.{circuit};
ghost use Rattle.call_check.specs.Call.{check_reply, check_on, check_call};

use crate::circuits::check_circuits;
use call_decide::bytes::bytes_verdict;
use file_format::{Board, Editions, Pattern, Refusal, Role};
use file_pair::read_pair;
use place::{Around, Asked};

mod circuits;

// The call on two circuits that were read: labels, starts and ends of the pattern's, then of the board's.
fn check_on(
    pk: &[u32],
    ps: &[u16],
    pe: &[u16],
    nk: &[u32],
    ns: &mut [u16],
    ne: &mut [u16],
    asked: Asked,
    nodes: &[u8],
    link_bytes: &[u8],
) -> Result<bool, Refusal>
    requires { let p = circuit pk.now ps.now pe.now in let b = circuit nk.now ns.old ne.old in Drawn p b }
    ensures { let p = circuit pk.now ps.now pe.now in let b = circuit nk.now ns.old ne.old in check_reply result
        ≡ check_on asked.radius p b asked.centre nodes.now link_bytes.now }
{
    let centre = asked.centre;
    bytes_verdict(nk.len(), ns.len(), centre, nodes.len(), link_bytes.len())?;
    let around = Around {
        centre: centre as u16,
        radius: asked.radius,
    };
    Ok(check_circuits(pk, ps, pe, nk, ns, ne, around, nodes, link_bytes))
}

// Whether the bytes are a perfect subgraph around the centre at the pattern's radius, largest or not, each file in its
// edition; or why the call was turned away. Nothing is written.
pub fn check(
    editions: Editions,
    pattern: &[u8],
    board: &[u8],
    centre: usize,
    nodes: &[u8],
    link_bytes: &[u8],
) -> Result<bool, Refusal>
    ensures { check_reply result ≡ check_call (in_edition editions.pattern pattern.now)
        (in_edition editions.board board.now) centre nodes.now link_bytes.now }
{
    let mut pk = [0u32; Pattern::MAX_NODES];
    let mut ps = [0u16; Pattern::MAX_LINKS];
    let mut pe = [0u16; Pattern::MAX_LINKS];
    let mut nk = [0u32; Board::MAX_NODES];
    let mut ns = [0u16; Board::MAX_LINKS];
    let mut ne = [0u16; Board::MAX_LINKS];
    let read = read_pair(
        Role::Pattern,
        editions,
        pattern,
        board,
        &mut pk,
        &mut ps,
        &mut pe,
        &mut nk,
        &mut ns,
        &mut ne,
    )?;
    let radius = read.radius;
    let parts = read.parts;
    let joins = read.joins;
    let n = read.nodes;
    let m = read.links;
    check_on(
        &pk[..parts],
        &ps[..joins],
        &pe[..joins],
        &nk[..n],
        &mut ns[..m],
        &mut ne[..m],
        Asked { centre, radius },
        nodes,
        link_bytes,
    )
}
