// Stretches of a file: parts of its bytes, read as 16-bit fields, low byte first.
#![tactic(auto)]

ghost use Rattle.std.specs.Prelude.{◌≡◌, ◌++◌, ◌+◌, ◌*◌, ◌<◌, ◌≤◌, length, get_or, drop};
ghost use Rattle.file_format.specs.Label.{labels};
ghost use Rattle.file_format.specs.Layout.{field, fields};

// The i-th field of a stretch.
pub fn field_at(part: &[u8], i: usize) -> u16
    requires { 2 * i + 1 < length part.now }
    ensures { result ≡ field part.now (2 * i) }
{
    let low = part[2 * i] as u16;
    let high = part[2 * i + 1] as u16;
    low + 256 * high
}

// The stretch of k fields that begins at an offset, as a part of the file.
pub fn stretch(file: &[u8], at: usize, k: usize) -> &[u8]
    requires { at + 2 * k ≤ length file.now }
    ensures { (length result.now ≡ 2 * k) × (fields result.now k ≡ fields (drop at file.now) k) }
{
    let end = at + 2 * k;
    &file[at..end]
}

// The first k fields, stored as numbers.
pub fn store(part: &[u8], k: usize, out: &mut [u16])
    requires { (2 * k ≤ length part.now) × (k ≤ length out.old) }
    ensures { out.new ≡ fields part.now k ++ drop k out.old }
{
    for i in 0..k {
        out[i] = field_at(part, i);
    }
}

// The k fields of a file that begin at an offset, stored so.
pub fn store_at(file: &[u8], at: usize, k: usize, out: &mut [u16])
    requires { (at + 2 * k ≤ length file.now) × (k ≤ length out.old) }
    ensures { out.new ≡ fields (drop at file.now) k ++ drop k out.old }
{
    store(stretch(file, at, k), k, out);
}

// The k fields that begin at an offset, and the j behind them, each stretch stored in its table.
pub fn store_two(file: &[u8], at: usize, k: usize, first: &mut [u16], j: usize, second: &mut [u16])
    requires { (at + 2 * k + 2 * j ≤ length file.now) × (k ≤ length first.old) × (j ≤ length second.old) }
    ensures first_after { first.new ≡ fields (drop at file.now) k ++ drop k first.old }
    ensures second_after { second.new
        ≡ fields (drop (at + 2 * k) file.now) j ++ drop j second.old }
{
    store_at(file, at, k, first);
    store_at(file, at + 2 * k, j, second);
}

// The i-th of a stretch of p packages; 0 where there are not so many.
fn package_at(part: &[u8], p: usize, i: usize) -> u32
    requires { 2 * p ≤ length part.now }
    ensures { (result ≡ get_or (fields part.now p) i 0) × (result < 65536) }
{
    if p <= i {
        return 0;
    }
    field_at(part, i) as u32
}

// The labels of k nodes, from the stretch of their kinds and one of p packages: each is the kind and 65,536 times the
// package.
pub fn store_labels(kinds: &[u8], k: usize, packages: &[u8], p: usize, out: &mut [u32])
    requires { (2 * k ≤ length kinds.now) × (2 * p ≤ length packages.now) × (k ≤ length out.old) }
    ensures { out.new
        ≡ labels (fields kinds.now k) (fields packages.now p) ++ drop k out.old }
{
    for i in 0..k {
        let kind = field_at(kinds, i) as u32;
        out[i] = kind + 65536 * package_at(packages, p, i);
    }
}
