// Definitions and laws of lists, tests and tables that every layer cites: see specs/ and proofs/. The code here fills
// and copies lists of any entries.
#![tactic(auto)]

ghost use Rattle.std.specs.Prelude.{◌++◌, ◌≡◌, ◌≤◌, length, drop, replicate};

// Sets every entry to x.
pub fn fill<T: Copy>(s: &mut [T], x: T)
    ensures { s.new ≡ replicate (length s.old) x }
{
    for entry in s.iter_mut() {
        *entry = x;
    }
}

// Copies all entries to the front of a list that has room for them.
pub fn copy<T: Copy>(part: &[T], out: &mut [T])
    requires { length part.now ≤ length out.old }
    ensures { out.new ≡ part.now ++ drop (length part.now) out.old }
{
    // A loop: `copy_from_slice` allows for an overlap of the two, and would make the library need `memmove`.
    for (i, &x) in part.iter().enumerate() {
        out[i] = x;
    }
}
