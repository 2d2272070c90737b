// The all-0 rule of the calls on a whole board: where some part is left without a node, the table is all 0.
ghost use Rattle.std.specs.Prelude.{◌≡◌, ◌≤◌, length};
ghost use Rattle.table.specs.Answer.{SetsFit, Ruled};
ghost use Rattle.table.specs.Union.{union_all};

use crate::Counts;
use base_bits::size;
use base_lists::fill;

// The parts that occur in a table: the union of all its sets.
pub fn occurring(table: &[u32]) -> u32
    ensures { result ≡ union_all table.now }
{
    let mut union: u32 = 0;
    for &set in table {
        union |= set;
    }
    union
}

// The counts of a row of which no pair is kept: as many are struck as there were at first, and the rounds stay.
fn none_kept(counts: Counts) -> Counts
    ensures { result ≡ record { started = counts.started; kept = 0; struck = counts.started; rounds = counts.rounds } }
{
    Counts {
        kept: 0,
        struck: counts.started,
        ..counts
    }
}

// The table and the counts of a row, where every part has to occur: as they are, or the table cleared and no pair kept.
// A table of so many parts has them all when the union of its sets has as many.
pub fn all_or_none(parts: usize, table: &mut [u32], counts: Counts) -> Counts
    requires parts_bound { parts ≤ 32 }
    requires sets_fit { SetsFit (length table.old) parts table.old }
    ensures { Ruled parts (length table.old) table.old counts table.new result }
{
    if size(occurring(table)) as usize == parts {
        return counts;
    }
    fill(table, 0);
    none_kept(counts)
}
