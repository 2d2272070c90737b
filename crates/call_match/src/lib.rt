// The match-table call: a pattern file on the whole board of another file. The pattern may lie in several bits.
#![tactic(auto)]

ghost use Rattle.std.specs.Prelude.{◌≡◌};
ghost use Rattle.file_format.specs.Layout.{in_edition};
ghost use Rattle.table.specs.Prepared.{tables};
ghost use Rattle.table.specs.Row.{ways_of};
ghost use Rattle.table_whole.specs.Kinds.{SomeLinks};
ghost use Rattle.call_match.specs.Call.{reply_of, EveryMatch, matching_by, matching, one_way_matching};

use call_prepare::{Reading, read_prepared};
use file_format::{Board, Editions, Pattern, Refusal, Role, TOO_SHORT};
use graph_neighbours::tables::{OFFSETS, TARGETS};
use table::{Counts, MASKS, Ways};
use table_whole::match_whole;

// The call on two circuits that were read and prepared. The table's length is tested before anything is written to it.
fn match_on(
    part_labels: &[u32],
    node_labels: &[u32],
    masks: &[u32],
    offsets: &[u16],
    targets: &[u16],
    table: &mut [u32],
) -> Result<Counts, Refusal>
    requires { SomeLinks part_labels.now node_labels.now (tables masks.now offsets.now targets.now) }
    ensures { EveryMatch part_labels.now node_labels.now
        (tables masks.now offsets.now targets.now) table.old
        (record { reply = reply_of result; table = table.new }) }
{
    let n = node_labels.len();
    if table.len() < n {
        return Err(TOO_SHORT);
    }
    Ok(match_whole(
        part_labels,
        node_labels,
        masks,
        offsets,
        targets,
        &mut table[..n],
    ))
}

// The call on two files, in the directions that count.
fn match_files(
    ways: Ways,
    editions: Editions,
    pattern: &[u8],
    board: &[u8],
    table: &mut [u32],
) -> Result<Counts, Refusal>
    ensures { record { reply = reply_of result; table = table.new }
        ≡ matching_by (ways_of ways) (in_edition editions.pattern pattern.now)
        (in_edition editions.board board.now) table.old }
{
    let mut pk = [0u32; Pattern::MAX_NODES];
    let mut nk = [0u32; Board::MAX_NODES];
    let mut masks = [0u32; MASKS];
    let mut offsets = [0u16; OFFSETS];
    let mut targets = [0u16; TARGETS];
    let read = read_prepared(
        Reading {
            role: Role::AnyPattern,
            ways,
            editions,
        },
        pattern,
        board,
        &mut pk,
        &mut nk,
        &mut masks,
        &mut offsets,
        &mut targets,
    )?;
    let parts = read.parts;
    let n = read.nodes;
    match_on(&pk[..parts], &nk[..n], &masks, &offsets, &targets, table)
}

// Matches the pattern of one file, connected or not, on the whole board of another: the four counts, with the largest
// dual simulation at the front of the table, a 32-bit number per node, which is all 0 where some part is left without a
// node; or the refusal, which leaves the table as it was.
pub fn match_table(
    editions: Editions,
    pattern: &[u8],
    board: &[u8],
    table: &mut [u32],
) -> Result<Counts, Refusal>
    ensures { record { reply = reply_of result; table = table.new }
        ≡ matching (in_edition editions.pattern pattern.now)
        (in_edition editions.board board.now) table.old }
{
    match_files(Ways::Both, editions, pattern, board, table)
}

// The same one way: a pair needs partners for what its part drives, and none for what drives it.
pub fn match_one_way(
    editions: Editions,
    pattern: &[u8],
    board: &[u8],
    table: &mut [u32],
) -> Result<Counts, Refusal>
    ensures { record { reply = reply_of result; table = table.new }
        ≡ one_way_matching (in_edition editions.pattern pattern.now)
        (in_edition editions.board board.now) table.old }
{
    match_files(Ways::Forward, editions, pattern, board, table)
}
