// The match-table call for patterns with bounds: a third-edition pattern file on the whole board of another file, of
// either edition.
#![tactic(auto)]

ghost use Rattle.std.specs.Prelude.{◌≡◌};
ghost use Rattle.file_format.specs.Circuit.{Bounded};
ghost use Rattle.file_format.specs.Layout.{in_edition};
ghost use Rattle.file_format.specs.declared.Role.TheVariants as role;
ghost use Rattle.graph.specs.Circuit.{circuit};
ghost use Rattle.bounded.specs.Problem.{Bounds};
ghost use Rattle.call_match.specs.Call.{reply_of};
ghost use Rattle.call_bounded.specs.Call.{bounded_on, bounded_matching};

use bounded_whole::match_bounded;
use file_bounds::load_bounded;
use file_format::{Board, Edition, Pattern, Refusal, Role, TOO_SHORT};
use file_read::load;
use table::Counts;

// The call on a pattern with bounds and a board that were read. The table's length is tested before anything is written
// to it.
fn match_on(
    part_labels: &[u32],
    part_starts: &[u16],
    part_ends: &[u16],
    bounds: &[u16],
    node_labels: &[u32],
    node_starts: &[u16],
    node_ends: &[u16],
    table: &mut [u32],
) -> Result<Counts, Refusal>
    requires bounded { Bounded role.Pattern (circuit part_labels.now part_starts.now part_ends.now) }
    requires bounds { Bounds (circuit part_labels.now part_starts.now part_ends.now) bounds.now }
    requires bounded_2 { Bounded role.Board (circuit node_labels.now node_starts.now node_ends.now) }
    ensures { record { reply = reply_of result; table = table.new }
        ≡ bounded_on (circuit part_labels.now part_starts.now part_ends.now)
        bounds.now (circuit node_labels.now node_starts.now
        node_ends.now) table.old }
{
    let n = node_labels.len();
    if table.len() < n {
        return Err(TOO_SHORT);
    }
    Ok(match_bounded(
        part_labels,
        part_starts,
        part_ends,
        bounds,
        node_labels,
        node_starts,
        node_ends,
        &mut table[..n],
    ))
}

// Matches the pattern of a third-edition file, connected or not, on the whole board of another file: a link of the
// pattern with bound h is met by a directed path of 1 to h links of the board. The four counts, with the largest such
// set at the front of the table, a 32-bit number per node, which is all 0 where some part is left without a node; or
// the refusal, which leaves the table as it was.
pub fn match_bounds(
    edition: Edition,
    pattern: &[u8],
    board: &[u8],
    table: &mut [u32],
) -> Result<Counts, Refusal>
    ensures { record { reply = reply_of result; table = table.new }
        ≡ bounded_matching pattern.now (in_edition edition board.now) table.old }
{
    let mut pk = [0u32; Pattern::MAX_NODES];
    let mut ps = [0u16; Pattern::MAX_LINKS];
    let mut pe = [0u16; Pattern::MAX_LINKS];
    let mut pb = [0u16; Pattern::MAX_LINKS];
    let drawn = load_bounded(pattern, &mut pk, &mut ps, &mut pe, &mut pb)?;
    let mut nk = [0u32; Board::MAX_NODES];
    let mut ns = [0u16; Board::MAX_LINKS];
    let mut ne = [0u16; Board::MAX_LINKS];
    let given = load(Role::Board, edition, board, &mut nk, &mut ns, &mut ne)?;
    let parts = drawn.nodes;
    let joins = drawn.links;
    let n = given.nodes;
    let m = given.links;
    match_on(
        &pk[..parts],
        &ps[..joins],
        &pe[..joins],
        &pb[..joins],
        &nk[..n],
        &ns[..m],
        &ne[..m],
        table,
    )
}
