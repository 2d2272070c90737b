// Reading a pattern file of the third edition: a file of the second edition, and a bound for each link after it.
#![tactic(auto)]

ghost use Rattle.std.specs.Prelude.{◌≡◌, ◌+◌, ◌*◌, ◌≤◌, length, take, drop};
ghost use Rattle.graph.specs.Circuit.{circuit};
ghost use Rattle.file_format.specs.Layout.{fields};
ghost use Rattle.file_format.specs.Reading.{TablesRoom};
ghost use Rattle.file_format.specs.Refusals.{by_number};
ghost use Rattle.file_format.specs.Reply.{verdict_of};
ghost use Rattle.file_format.specs.declared.Role.TheVariants as role;
ghost use Rattle.file_bounds.specs.Third.{bounds_fit, third_size, BoundsLoaded};

use file_fields::{field_at, store_at};
use file_format::{Edition, FileRead, Refusal, Role};
use file_read::load;
use file_role::{check_counts, length_of, refusal};

// 1, 2 or 3, the first that the file's size gives.
fn check_size(file: &[u8]) -> Result<(), Refusal>
    ensures { verdict_of result ≡ by_number role.AnyPattern (third_size file.now) }
{
    if file.len() < 4 {
        return Err(refusal(Role::AnyPattern, 1));
    }
    let n = field_at(file, 0) as usize;
    let m = field_at(file, 1) as usize;
    let asked = length_of(Edition::Second, n, m) + 2 * m;
    check_counts(Role::AnyPattern, n, m, file.len(), asked)
}

// Every bound is from 1 to 4.
fn all_within(bounds: &[u16]) -> bool
    ensures { result ≡ bounds_fit bounds.now }
{
    bounds.iter().all(|&bound| 1 <= bound && bound <= 4)
}

// The m bounds that begin at an offset, stored; and whether every one is from 1 to 4.
fn read_bounds(file: &[u8], at: usize, m: usize, bounds: &mut [u16]) -> bool
    requires { (at + 2 * m ≤ length file.now) × (m ≤ length bounds.old) }
    ensures value { result ≡ bounds_fit (fields (drop at file.now) m) }
    ensures bounds_after { take m bounds.new ≡ fields (drop at file.now) m }
{
    store_at(file, at, m, bounds);
    all_within(&bounds[..m])
}

// Reads a pattern file of the third edition, connected or not, into tables that have room for every one: N and M, with
// the labels, the starts, the ends and the bounds at the front of the tables; or the refusal, which is 13 where what
// stands before the bounds is accepted and a bound is not from 1 to 4.
pub fn load_bounded(
    file: &[u8],
    labels: &mut [u32],
    starts: &mut [u16],
    ends: &mut [u16],
    bounds: &mut [u16],
) -> Result<FileRead, Refusal>
    requires tables_room { TablesRoom role.AnyPattern (circuit labels.old starts.old ends.old) }
    requires in_bounds { 256 ≤ length bounds.old }
    ensures { BoundsLoaded file.now result
        (circuit labels.new starts.new ends.new) bounds.new }
{
    check_size(file)?;
    let n = field_at(file, 0) as usize;
    let m = field_at(file, 1) as usize;
    let at = 4 + 4 * n + 4 * m;
    let read = load(
        Role::AnyPattern,
        Edition::Second,
        &file[..at],
        labels,
        starts,
        ends,
    )?;
    if !read_bounds(file, at, m, bounds) {
        return Err(refusal(Role::AnyPattern, 13));
    }
    Ok(read)
}
