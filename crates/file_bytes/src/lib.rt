// Numbers of 16 bits stored as bytes, low byte first; and the stretches of a circuit's file, one behind another.
#![tactic(auto)]

ghost use Rattle.std.specs.Prelude.{◌≡◌, [], ◌∷◌, ◌++◌, ◌+◌, ◌*◌, ◌<◌, ◌≤◌, length};
ghost use Rattle.file_format.specs.Reading.{filled};
ghost use Rattle.file_format.specs.Refusals.{accept};
ghost use Rattle.file_bytes.specs.Bytes.{stored, stretch_bytes};

// One number, at an offset.
fn store_field(x: u16, at: usize, out: &mut [u8])
    requires { at + 2 ≤ length out.old }
    ensures { out.new ≡ stored out.old at (x ∷ []) }
{
    out[at] = (x % 256) as u8;
    out[at + 1] = (x / 256) as u8;
}

// Numbers one after another, from an offset on.
fn store(numbers: &[u16], at: usize, out: &mut [u8])
    requires { at + 2 * length numbers.now ≤ length out.old }
    ensures { out.new ≡ stored out.old at numbers.now }
{
    for i in 0..numbers.len() {
        store_field(numbers[i], at + 2 * i, out);
    }
}

// Two lists of numbers, the second behind the first.
fn store_two(first: &[u16], second: &[u16], at: usize, out: &mut [u8])
    requires { at + 2 * length first.now + 2 * length second.now ≤ length out.old }
    ensures { out.new ≡ stored out.old at (first.now ++ second.now) }
{
    store(first, at, out);
    store(second, at + 2 * first.len(), out);
}

// The circuit's file, at the front of bytes that have room for it. `packages` are those that the edition has.
pub fn put_fields(kinds: &[u16], packages: &[u16], starts: &[u16], ends: &[u16], out: &mut [u8])
    requires kinds_len_bound { (length kinds.now < 65536) × (length starts.now < 65536)
        × (length starts.now ≡ length ends.now) }
    requires starts_in_bounds { 4 + 2 * length kinds.now + 2 * length packages.now + 4 * length starts.now ≤ length out.old }
    ensures { out.new
        ≡ filled accept (stretch_bytes kinds.now packages.now starts.now
        ends.now) out.old }
{
    let n = kinds.len();
    store_field(n as u16, 0, out);
    store_field(starts.len() as u16, 2, out);
    store_two(kinds, packages, 4, out);
    store_two(starts, ends, 4 + 2 * n + 2 * packages.len(), out);
}
