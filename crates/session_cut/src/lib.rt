// Cutting links while searching: a cut, and reading the table out. Both take tables of any content, and what they make
// of it are equations (session/specs/Tables); where the tables hold a machine, that is the machine's reply, and its
// table.
#![tactic(auto)]

ghost use Rattle.std.specs.Prelude.{◌≡◌, length};
ghost use Rattle.session.specs.State.{state, StateRoom};
ghost use Rattle.session.specs.Tables.{bounded, CutMade, occur_or_none, ReadMade};
ghost use Rattle.file_format.specs.Reply.{number_reply, verdict_of};
ghost use Rattle.session_cut.specs.Cut.{TakenOut};

use base_bits::size;
use base_lists::{copy, fill};
use file_format::{File, Refusal, TOO_SHORT};
use graph::UNREACHED;
use graph_neighbours::tables::FORWARD_TARGETS;
use session_strike::strike_from;
use table::MASKS;
use table::rule::occurring;

// No link is left at the place.
const LINK_GONE: Refusal = Refusal {
    number: 14,
    file: File::Neither,
};

// A number of the tables, or 0 where it is above what there is room for.
fn at_most(most: usize, x: usize) -> usize
    ensures { result ≡ bounded most x }
{
    if x <= most {
        return x;
    }
    0
}

// Takes the link at a place out, where one is left: its start and its end. Both its entries become no node's.
fn take_out(ends: &mut [u16], nodes: usize, link_index: usize) -> Option<(usize, usize)>
    requires { length ends.old ≡ 8192 }
    ensures { TakenOut ends.old nodes link_index result ends.new }
{
    if FORWARD_TARGETS <= link_index {
        return None;
    }
    let end = ends[link_index] as usize;
    if nodes <= end {
        return None;
    }
    let back = FORWARD_TARGETS + link_index;
    let start = ends[back] as usize;
    ends[link_index] = UNREACHED;
    ends[back] = UNREACHED;
    Some((start, end))
}

// Cuts the link at a place of the board's file, and strikes on from the last table: only the link's two ends can change
// at first.
pub fn cut(
    fixed: &[u32],
    offsets: &[u16],
    numbers: &[u16],
    ends: &mut [u16],
    sets: &mut [u32],
    link_index: usize,
) -> Result<(), Refusal>
    requires { StateRoom (state fixed.now offsets.now numbers.now ends.old sets.old) }
    ensures { CutMade (state fixed.now offsets.now numbers.now
        ends.old sets.old) link_index (verdict_of result)
        (state fixed.now offsets.now numbers.now ends.new
        sets.new) }
{
    let n = at_most(512, fixed[65] as usize);
    let Some((start, end)) = take_out(ends, n, link_index) else {
        return Err(LINK_GONE);
    };
    strike_from(
        &fixed[..MASKS],
        offsets,
        numbers,
        ends,
        &mut sets[..n],
        start,
        end,
    );
    Ok(())
}

// Clears a table of so many parts where one of them is left without a node. (table::rule has one that counts, too: an
// edit tells the two apart.)
fn all_or_none(parts: usize, table: &mut [u32])
    ensures { table.new ≡ occur_or_none parts table.old }
{
    if size(occurring(table)) as usize == parts {
        return;
    }
    fill(table, 0);
}

// Reads the session's table out: how many nodes it has, with the sets at the front of the table lent, or all 0 where
// some part is left without a node.
pub fn read_out(fixed: &[u32], sets: &[u32], table: &mut [u32]) -> Result<usize, Refusal>
    requires { (length fixed.now ≡ 66) × (length sets.now ≡ 512) }
    ensures { ReadMade fixed.now sets.now table.old (number_reply result)
        table.new }
{
    let n = at_most(512, fixed[65] as usize);
    if table.len() < n {
        return Err(TOO_SHORT);
    }
    copy(&sets[..n], table);
    let parts = at_most(32, fixed[64] as usize);
    all_or_none(parts, &mut table[..n]);
    Ok(n)
}
