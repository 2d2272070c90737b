// The calls for programs in other languages, as include/heronditch.h has them: a slice crosses as a pointer and a
// length, a circuit file as a slice and the number of its edition, and each reply is a struct of numbers. What the
// numbers stand for is said in heronditch_told.
#![tactic(auto)]

ghost use Rattle.std.specs.Prelude.{◌≡◌};

pub mod cutting;
pub mod files;
pub mod places;
mod replies;
pub mod shelf;
pub mod whole;

// The version of this interface.
const VERSION: u32 = 3;

// Replies with the version of the library that is linked.
#[unsafe(no_mangle)]
pub extern "C" fn heronditch_version() -> u32
    ensures { result ≡ 3 }
{
    VERSION
}
