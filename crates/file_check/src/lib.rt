// The conditions 1 to 6 and 11 on a file or on a circuit, tried in their order. Nothing is written.
#![tactic(auto)]

ghost use Rattle.std.specs.Prelude.{◌≡◌, T, length};
ghost use Rattle.file_format.specs.Layout.{in_edition};
ghost use Rattle.file_format.specs.Reading.{LinksTested};
ghost use Rattle.file_format.specs.Refusals.{by_number, size_number};
ghost use Rattle.file_format.specs.Reply.{verdict_of};
ghost use Rattle.file_format.specs.Role.{in_range};
ghost use Rattle.file_check.specs.Circuit.{circuit_number};

use file_fields::field_at;
use file_format::{Edition, Refusal, Role, in_range, package_count};
use file_links::check_order;
use file_role::{asks_connected, check_counts, check_width, length_of, refusal};

// 1, 2 or 3, the first that the file's size gives.
pub fn check_size(role: Role, edition: Edition, file: &[u8]) -> Result<(), Refusal>
    ensures { verdict_of result
        ≡ by_number role (size_number role (in_edition edition file.now)) }
{
    if file.len() < 4 {
        return Err(refusal(role, 1));
    }
    let n = field_at(file, 0) as usize;
    let m = field_at(file, 1) as usize;
    check_counts(role, n, m, file.len(), length_of(edition, n, m))
}

// 4, 5, 6 or 11, the first that the links of a circuit in a role give; where they give none, a pattern's radius, and 0
// of a circuit that need not be connected. One search finds whether a pattern is connected, and its radius, which
// decides 11. Reading and writing both call it.
pub fn check_links(role: Role, n: usize, starts: &[u16], ends: &[u16]) -> Result<u16, Refusal>
    requires { T (in_range role n (length starts.now)) × (length starts.now ≡ length ends.now) }
    ensures { LinksTested role n starts.now ends.now result }
{
    check_order(role, n, starts, ends)?;
    if !asks_connected(role) {
        return Ok(0);
    }
    let radius = graph_radius::radius(n, starts, ends);
    check_width(role, radius)?;
    Ok(radius)
}

// 2 to 6 or 11, the first that a circuit of n nodes gives which is to be written with as many packages as given.
pub fn check_circuit(
    role: Role,
    edition: Edition,
    n: usize,
    given: usize,
    starts: &[u16],
    ends: &[u16],
) -> Result<(), Refusal>
    ensures { verdict_of result
        ≡ by_number role (circuit_number role edition n «given» starts.now ends.now) }
{
    let m = starts.len();
    if !in_range(role, n, m) {
        return Err(refusal(role, 2));
    }
    if m != ends.len() {
        return Err(refusal(role, 3));
    }
    if package_count(edition, given) != package_count(edition, n) {
        return Err(refusal(role, 3));
    }
    check_links(role, n, starts, ends)?;
    Ok(())
}
