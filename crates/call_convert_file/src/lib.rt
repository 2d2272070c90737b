// The converting call: a circuit file from one edition to another.
#![tactic(auto)]

ghost use Rattle.std.specs.Prelude.{◌≡◌, ◌≤◌, length};
ghost use Rattle.base_lists.specs.List.{Below};
ghost use Rattle.file_format.specs.Layout.{in_edition};
ghost use Rattle.file_format.specs.Reply.{number_reply};
ghost use Rattle.call_convert.specs.Call.{converting};

use call_convert::convert_circuit;
use file_format::{Board, Edition, Refusal, Role};
use file_read::read;

// The call, with tables for the circuit of any file. A first-edition file has no packages, so that those of the table,
// all 0, are taken.
fn convert_through(
    role: Role,
    from: Edition,
    to: Edition,
    file: &[u8],
    kinds: &mut [u16],
    packages: &mut [u16],
    starts: &mut [u16],
    ends: &mut [u16],
    out: &mut [u8],
) -> Result<usize, Refusal>
    requires in_bounds { (512 ≤ length kinds.old) × (512 ≤ length packages.old) × (4096 ≤ length starts.old)
        × (4096 ≤ length ends.old) }
    requires below { Below 1 packages.old }
    ensures { record { reply = number_reply result; out = out.new }
        ≡ converting role to (in_edition from file.now) out.old }
{
    let size = read(role, from, file, kinds, packages, starts, ends)?;
    let n = size.nodes;
    let m = size.links;
    convert_circuit(
        role,
        to,
        &kinds[..n],
        &packages[..n],
        &starts[..m],
        &ends[..m],
        out,
    )
}

// Converts a file of one edition, in a role, to another: the new file's length, with the new file at the front of the
// bytes lent; or the refusal, which leaves every byte as it was.
pub fn convert(
    role: Role,
    from: Edition,
    to: Edition,
    file: &[u8],
    out: &mut [u8],
) -> Result<usize, Refusal>
    ensures { record { reply = number_reply result; out = out.new }
        ≡ converting role to (in_edition from file.now) out.old }
{
    let mut kinds = [0u16; Board::MAX_NODES];
    let mut packages = [0u16; Board::MAX_NODES];
    let mut starts = [0u16; Board::MAX_LINKS];
    let mut ends = [0u16; Board::MAX_LINKS];
    convert_through(
        role,
        from,
        to,
        file,
        &mut kinds,
        &mut packages,
        &mut starts,
        &mut ends,
        out,
    )
}
