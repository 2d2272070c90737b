// Byte strings that lie one after another, and the shelf's text.
ghost use Rattle.std.specs.Prelude.{List, ◌≡◌, ◌+◌, ◌≤◌, get_or};
ghost use Rattle.call_shelf.specs.Strings.{capped, cut_into};

// So many bytes on, or the end of the bytes where there are fewer.
fn step(at: usize, size: u32, end: usize) -> usize
    requires { at ≤ end }
    ensures { (result ≡ capped end (at + size)) × (at ≤ result) × (result ≤ end) }
{
    if size as usize <= end - at {
        return at + size as usize;
    }
    end
}

// The i-th of the byte strings that lie one after another, as long as the lengths say, as far as there are bytes; none
// past the last.
pub fn string_at<'a>(bytes: &'a [u8], lengths: &[u32], i: usize) -> &'a [u8]
    ensures { result.now ≡ get_or (cut_into bytes.now lengths.now) i List.[] }
{
    if lengths.len() <= i {
        return &bytes[0..0];
    }
    let mut at = 0;
    for &size in &lengths[..i] {
        at = step(at, size, bytes.len());
    }
    let end = step(at, lengths[i], bytes.len());
    &bytes[at..end]
}
