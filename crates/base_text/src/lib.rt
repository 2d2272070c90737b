// Text into a table of bytes: each function writes from an offset on and returns the offset after what it wrote.
#![tactic(auto)]

ghost use Rattle.std.specs.Prelude.{List, ◌++◌, ◌≡◌, ◌+◌, ◌≤◌, ◌<◌, length};
ghost use Rattle.base_text.specs.Text.{Put, Fits, decimal, bytes_of_four, digits_number, Names};

// One byte.
pub fn put_byte(b: u8, out: &mut [u8], at: usize) -> usize
    requires { Fits out.old at (List.◌∷◌ b List.[]) }
    ensures { Put out.old at (List.◌∷◌ b List.[]) out.new result }
{
    out[at] = b;
    at + 1
}

// All bytes of a word.
pub fn put_bytes(word: &[u8], out: &mut [u8], at: usize) -> usize
    requires { Fits out.old at word.now }
    ensures { Put out.old at word.now out.new result }
{
    // Byte by byte: `copy_from_slice` allows for an overlap, and takes more instructions for a short word.
    let mut end = at;
    for &b in word {
        end = put_byte(b, out, end);
    }
    end
}

// The digit of a number below 10.
fn put_digit(x: usize, out: &mut [u8], at: usize) -> usize
    requires x_bound { x < 10 }
    requires fits { Fits out.old at (List.◌∷◌ (48 + x) List.[]) }
    ensures { Put out.old at (List.◌∷◌ (48 + x) List.[]) out.new result }
{
    put_byte(48 + x as u8, out, at)
}

// A number of one or two digits.
fn put_two(x: usize, out: &mut [u8], at: usize) -> usize
    requires x_bound { x < 100 }
    requires fits { Fits out.old at (decimal x) }
    ensures { Put out.old at (decimal x) out.new result }
{
    if x < 10 {
        return put_digit(x, out, at);
    }
    let next = put_digit(x / 10, out, at);
    put_digit(x % 10, out, next)
}

// A number of at most three digits.
fn put_three(x: usize, out: &mut [u8], at: usize) -> usize
    requires x_bound { x < 1000 }
    requires fits { Fits out.old at (decimal x) }
    ensures { Put out.old at (decimal x) out.new result }
{
    if x < 100 {
        return put_two(x, out, at);
    }
    let next = put_two(x / 10, out, at);
    put_digit(x % 10, out, next)
}

// A number in decimal: what is left of it after its last digit, where there are more than three, and then that digit.
pub fn put_number(x: usize, out: &mut [u8], at: usize) -> usize
    requires { Fits out.old at (decimal x) }
    ensures { Put out.old at (decimal x) out.new result }
{
    if x < 1000 {
        return put_three(x, out, at);
    }
    let next = put_number(x / 10, out, at);
    put_digit(x % 10, out, next)
}

// A word, and a number after it.
pub fn put_numbered(word: &[u8], x: usize, out: &mut [u8], at: usize) -> usize
    requires { Fits out.old at (word.now ++ decimal x) }
    ensures { Put out.old at (word.now ++ decimal x) out.new result }
{
    let next = put_bytes(word, out, at);
    put_number(x, out, next)
}

// The four bytes of a number, the low one first. Compiled, that is one store.
fn put_four(x: u32, out: &mut [u8], at: usize) -> usize
    requires { Fits out.old at (bytes_of_four x) }
    ensures { Put out.old at (bytes_of_four x) out.new result }
{
    let end = at + 4;
    out[at..end].copy_from_slice(&x.to_le_bytes());
    end
}

// The digits of a number, as a number of four bytes.
fn name_of(x: u32) -> u32
    requires { x < 1000 }
    ensures { result ≡ digits_number x }
{
    256 * (48 + x / 100) + 65536 * (48 + x / 10 % 10) + 16777216 * (48 + x % 10)
}

// The names of the numbers 0, 1, 2, .. as far as there is room.
pub fn make_names(names: &mut [u32])
    requires { length names.old ≤ 1000 }
    ensures { Names names.new }
{
    for (x, name) in names.iter_mut().enumerate() {
        *name = name_of(x as u32);
    }
}

// A byte and a number. Four bytes at once are put by the number's name, where it has three digits.
pub fn put_name(names: &[u32], b: u8, x: usize, out: &mut [u8], at: usize) -> usize
    requires names { Names names.now }
    requires x_in_bounds { x < length names.now }
    requires fits { Fits out.old at (List.◌∷◌ b (decimal x)) }
    ensures { Put out.old at (List.◌∷◌ b (decimal x)) out.new result }
{
    if x < 100 {
        let next = put_byte(b, out, at);
        return put_two(x, out, next);
    }
    put_four(names[x] + b as u32, out, at)
}
