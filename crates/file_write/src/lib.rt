// Writing circuit files: a circuit as the bytes of its file, or a refusal by number.
#![tactic(auto)]

ghost use Rattle.std.specs.Prelude.{[], ◌≡◌, ◌≤◌, length};
ghost use Rattle.file_format.specs.declared.Edition.TheVariants as editions;
ghost use Rattle.file_format.specs.Label.{packages_in};
ghost use Rattle.file_format.specs.Refusals.{first};
ghost use Rattle.file_format.specs.Reply.{number_reply, verdict_of};
ghost use Rattle.file_write.specs.Bytes.{kinds_for, LabelsFit};
ghost use Rattle.file_write.specs.Writing.{circuit_conditions, writing};

mod parts;

use crate::parts::split;
use file_bytes::put_fields;
use file_check::check_circuit;
use file_format::{Board, Edition, Refusal, Role, TOO_SHORT, package_count};
use file_role::length_of;

// The first condition that turns a circuit away: one of 2 to 6, or 11.
fn check(
    role: Role,
    edition: Edition,
    kinds: &[u16],
    packages: &[u16],
    starts: &[u16],
    ends: &[u16],
) -> Result<(), Refusal>
    ensures { verdict_of result
        ≡ first (circuit_conditions role edition kinds.now packages.now starts.now ends.now) }
{
    check_circuit(role, edition, kinds.len(), packages.len(), starts, ends)
}

// Writes a circuit's file of an edition in a role to the front of the bytes lent: the file's length; or the refusal,
// which leaves every byte as it was.
pub fn write(
    role: Role,
    edition: Edition,
    kinds: &[u16],
    packages: &[u16],
    starts: &[u16],
    ends: &[u16],
    out: &mut [u8],
) -> Result<usize, Refusal>
    ensures { record { answer = result; reply = number_reply result; out = out.new }
        ≡ writing role edition kinds.now packages.now starts.now
        ends.now out.old }
{
    check(role, edition, kinds, packages, starts, ends)?;
    let n = kinds.len();
    let size = length_of(edition, n, starts.len());
    if out.len() < size {
        return Err(TOO_SHORT);
    }
    let p = package_count(edition, n);
    put_fields(kinds, &packages[..p], starts, ends, out);
    Ok(size)
}

// Writes a first-edition file: there are no packages.
pub fn write_first(
    role: Role,
    kinds: &[u16],
    starts: &[u16],
    ends: &[u16],
    out: &mut [u8],
) -> Result<usize, Refusal>
    ensures { record { answer = result; reply = number_reply result; out = out.new }
        ≡ writing role editions.First kinds.now [] starts.now ends.now
        out.old }
{
    write(role, Edition::First, kinds, &kinds[0..0], starts, ends, out)
}

// Writes the file of a circuit, whose labels have the kinds and the packages, with tables for these.
fn write_parts(
    role: Role,
    edition: Edition,
    labels: &[u32],
    kinds: &mut [u16],
    packages: &mut [u16],
    starts: &[u16],
    ends: &[u16],
    out: &mut [u8],
) -> Result<usize, Refusal>
    requires { (length kinds.old ≡ length labels.now) × (length packages.old ≡ length labels.now)
        × LabelsFit edition labels.now }
    ensures { record { answer = result; reply = number_reply result; out = out.new }
        ≡ writing role edition (kinds_for edition labels.now) (packages_in labels.now)
        starts.now ends.now out.old }
{
    split(labels, kinds, packages);
    write(role, edition, kinds, packages, starts, ends, out)
}

// The same with tables of its own.
pub fn write_circuit(
    role: Role,
    edition: Edition,
    labels: &[u32],
    starts: &[u16],
    ends: &[u16],
    out: &mut [u8],
) -> Result<usize, Refusal>
    requires { (length labels.now ≤ 512) × LabelsFit edition labels.now }
    ensures { record { answer = result; reply = number_reply result; out = out.new }
        ≡ writing role edition (kinds_for edition labels.now) (packages_in labels.now)
        starts.now ends.now out.old }
{
    let mut kinds = [0u16; Board::MAX_NODES];
    let mut packages = [0u16; Board::MAX_NODES];
    let n = labels.len();
    write_parts(
        role,
        edition,
        labels,
        &mut kinds[..n],
        &mut packages[..n],
        starts,
        ends,
        out,
    )
}
