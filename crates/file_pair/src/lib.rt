// A pattern file and a board file, read for a call on both.
#![tactic(auto)]

ghost use Rattle.graph.specs.Circuit.{circuit};
ghost use Rattle.file_format.specs.Layout.{in_edition};
ghost use Rattle.file_format.specs.Reading.{TablesRoom};
ghost use Rattle.file_format.specs.declared.Role.TheVariants as roles;
ghost use Rattle.file_pair.specs.Pair.{PairRead};

use file_format::{Editions, Refusal, Role};
use file_read::load;

// Two accepted files that were read: the pattern's N and M and, if it has to be connected, its radius, and the board's N
// and M.
#[derive(Clone, Copy)]
pub struct Pair {
    pub parts: usize,
    pub joins: usize,
    pub radius: u16,
    pub nodes: usize,
    pub links: usize,
}

// Reads the pattern, in the role told, then the board, each in its edition: their sizes, with the two circuits at the
// front of the tables, three for each; or the first refusal.
pub fn read_pair(
    role: Role,
    editions: Editions,
    pattern: &[u8],
    board: &[u8],
    pk: &mut [u32],
    ps: &mut [u16],
    pe: &mut [u16],
    nk: &mut [u32],
    ns: &mut [u16],
    ne: &mut [u16],
) -> Result<Pair, Refusal>
    requires { TablesRoom role (circuit pk.old ps.old pe.old) ×
        TablesRoom roles.Board (circuit nk.old ns.old ne.old) }
    ensures { PairRead role (in_edition editions.pattern pattern.now)
        (in_edition editions.board board.now) result
        (circuit pk.new ps.new pe.new)
        (circuit nk.new ns.new ne.new) }
{
    let drawn = load(role, editions.pattern, pattern, pk, ps, pe)?;
    let given = load(Role::Board, editions.board, board, nk, ns, ne)?;
    Ok(Pair {
        parts: drawn.nodes,
        joins: drawn.links,
        radius: drawn.radius,
        nodes: given.nodes,
        links: given.links,
    })
}
