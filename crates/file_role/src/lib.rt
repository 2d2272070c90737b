// What a role asks of a file or a circuit: its range, its length, whether it is to be connected, and how wide it may
// be; and the file that its refusals name.
#![tactic(auto)]

ghost use Rattle.std.specs.Prelude.{cond, ◌≡◌, ◌<◌, eqb};
ghost use Rattle.file_format.specs.Layout.{length_of};
ghost use Rattle.file_format.specs.Refusals.{by_number, asks_connected, width_number};
ghost use Rattle.file_format.specs.Reply.{verdict_of};
ghost use Rattle.file_format.specs.Role.{in_range, file_of};

use file_format::{Edition, File, Pattern, Refusal, Role, in_range, package_count};

// The file that a role's refusals name.
fn file_of(role: Role) -> File
    ensures { result ≡ file_of role }
{
    match role {
        Role::Pattern => File::Pattern,
        Role::Board => File::Board,
        Role::AnyPattern => File::Pattern,
    }
}

// The refusal of a file in a role.
pub fn refusal(role: Role, number: u8) -> Refusal
    ensures { result ≡ record { number = number; file = file_of role } }
{
    let file = file_of(role);
    Refusal { number, file }
}

// The length of a file of an edition, of n nodes and m links.
pub fn length_of(edition: Edition, n: usize, m: usize) -> usize
    requires { (n < 65536) × (m < 65536) }
    ensures { result ≡ length_of edition n m }
{
    4 + 2 * n + 2 * package_count(edition, n) + 4 * m
}

// 2 or 3, the first that N, M and a file's length give, where its edition asks for another.
pub fn check_counts(
    role: Role,
    n: usize,
    m: usize,
    length: usize,
    asked: usize,
) -> Result<(), Refusal>
    ensures { verdict_of result
        ≡ by_number role (cond (in_range role n m) (cond (eqb length asked) 0 3) 2) }
{
    if !in_range(role, n, m) {
        return Err(refusal(role, 2));
    }
    if length != asked {
        return Err(refusal(role, 3));
    }
    Ok(())
}

// A circuit in the role has to be connected.
pub fn asks_connected(role: Role) -> bool
    ensures { result ≡ asks_connected role }
{
    match role {
        Role::Pattern => true,
        Role::Board => false,
        Role::AnyPattern => false,
    }
}

// 6 or 11, by a pattern's radius, which is 65535 where the links do not join all parts.
pub fn check_width(role: Role, radius: u16) -> Result<(), Refusal>
    ensures { verdict_of result ≡ by_number role (width_number radius) }
{
    if radius == 65535 {
        return Err(refusal(role, 6));
    }
    if Pattern::MAX_RADIUS < radius {
        return Err(refusal(role, 11));
    }
    Ok(())
}
