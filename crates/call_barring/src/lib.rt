// The call that finds the least of a pattern's links that still says that there is no place around a centre: a pattern
// file, the board of another file and a centre.
#![tactic(auto)]

ghost use Rattle.std.specs.Prelude.{◌≡◌};
ghost use Rattle.file_format.specs.Circuit.{Bounded};
ghost use Rattle.file_format.specs.declared.Role.TheVariants as role;
ghost use Rattle.file_format.specs.Layout.{in_edition};
ghost use Rattle.file_format.specs.Reply.{number_reply};
ghost use Rattle.graph.specs.Circuit.{circuit};
ghost use Rattle.call_barring.specs.Call.{bar_on, bar_call};

use barring_find::bar_circuits;
use file_format::{Board, Editions, OUTSIDE, Pattern, Refusal, Role, TOO_SHORT};
use file_pair::read_pair;
use place::{Around, Asked};

// The call on two circuits that were read: labels, starts and ends of the pattern's, then of the board's. Everything is
// tested before anything is written to the lent bytes.
fn bar_on(
    pk: &[u32],
    ps: &[u16],
    pe: &[u16],
    nk: &[u32],
    ns: &[u16],
    ne: &[u16],
    asked: Asked,
    out: &mut [u8],
) -> Result<usize, Refusal>
    requires { let p = circuit pk.now ps.now pe.now in let b = circuit nk.now ns.now ne.now in Bounded role.Pattern p × Bounded role.Board b }
    ensures { let p = circuit pk.now ps.now pe.now in let b = circuit nk.now ns.now ne.now in record { reply = number_reply result; out = out.new }
        ≡ bar_on asked.radius p b asked.centre out.old }
{
    let centre = asked.centre;
    if nk.len() <= centre {
        return Err(OUTSIDE);
    }
    if out.len() < ps.len() {
        return Err(TOO_SHORT);
    }
    let around = Around {
        centre: centre as u16,
        radius: asked.radius,
    };
    bar_circuits(pk, ps, pe, nk, ns, ne, around, out)
}

// The least of the pattern's links that still says that there is no place around the centre at the pattern's radius: a
// byte per pattern link, 1 for kept, first in `out`, and how many are 1; or the refusal, which leaves `out` as it was.
pub fn bar(
    editions: Editions,
    pattern: &[u8],
    board: &[u8],
    centre: usize,
    out: &mut [u8],
) -> Result<usize, Refusal>
    ensures { record { reply = number_reply result; out = out.new }
        ≡ bar_call (in_edition editions.pattern pattern.now)
        (in_edition editions.board board.now) centre out.old }
{
    let mut pk = [0u32; Pattern::MAX_NODES];
    let mut ps = [0u16; Pattern::MAX_LINKS];
    let mut pe = [0u16; Pattern::MAX_LINKS];
    let mut nk = [0u32; Board::MAX_NODES];
    let mut ns = [0u16; Board::MAX_LINKS];
    let mut ne = [0u16; Board::MAX_LINKS];
    let read = read_pair(
        Role::Pattern,
        editions,
        pattern,
        board,
        &mut pk,
        &mut ps,
        &mut pe,
        &mut nk,
        &mut ns,
        &mut ne,
    )?;
    let radius = read.radius;
    let parts = read.parts;
    let joins = read.joins;
    let n = read.nodes;
    let m = read.links;
    bar_on(
        &pk[..parts],
        &ps[..joins],
        &pe[..joins],
        &nk[..n],
        &ns[..m],
        &ne[..m],
        Asked { centre, radius },
        out,
    )
}
