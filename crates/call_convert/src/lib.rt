// Converting a circuit that was read to a file of another edition.
#![tactic(auto)]

ghost use Rattle.std.specs.Prelude.{◌≡◌};
ghost use Rattle.file_format.specs.Refusals.{Verdict, first, lost_package};
ghost use Rattle.file_format.specs.Reply.{number_reply};
ghost use Rattle.file_write.specs.Writing.{circuit_conditions};
ghost use Rattle.call_convert.specs.Call.{convert_on};

use file_format::{Edition, Refusal, Role};
use file_role::refusal;
use file_write::write;

// A package would be lost: the first edition has no place for one other than 0.
fn loses(to: Edition, packages: &[u16]) -> bool
    ensures { result ≡ lost_package to packages.now }
{
    match to {
        Edition::First => packages.iter().any(|&package| package != 0),
        Edition::Second => false,
    }
}

// The file of a circuit that was read, in another edition: its length; or the refusal.
pub fn convert_circuit(
    role: Role,
    to: Edition,
    kinds: &[u16],
    packages: &[u16],
    starts: &[u16],
    ends: &[u16],
    out: &mut [u8],
) -> Result<usize, Refusal>
    requires { first (circuit_conditions role to kinds.now packages.now starts.now ends.now)
        ≡ Verdict.accept }
    ensures { record { reply = number_reply result; out = out.new }
        ≡ convert_on role to kinds.now packages.now starts.now ends.now
        out.old }
{
    if loses(to, packages) {
        return Err(refusal(role, 12));
    }
    write(role, to, kinds, packages, starts, ends, out)
}
