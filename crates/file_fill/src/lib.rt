// The stretches of a file whose size is sound, each stored in its table.
#![tactic(auto)]

ghost use Rattle.std.specs.Prelude.{◌≡◌, ◌++◌, ◌≤◌, length, drop};
ghost use Rattle.file_format.specs.Layout.{in_edition, nodes_of, links_of, fields, starts_at, ends_at, length_of, labels_from};
ghost use Rattle.file_format.specs.Reading.{reading};
ghost use Rattle.file_format.specs.Refusals.{accept, first, file_conditions};
ghost use Rattle.file_format.specs.Reply.{read_reply};
ghost use Rattle.file_format.specs.declared.Role.{Role};

use file_fields::{store_labels, store_two, stretch};
use file_format::{Edition, Refusal, Size, TOO_SHORT, package_count};

// The starts and the ends of a file of n nodes and m links, each stored in its table.
pub fn fill_links(
    edition: Edition,
    file: &[u8],
    n: usize,
    m: usize,
    starts: &mut [u16],
    ends: &mut [u16],
)
    requires file_len { length file.now ≡ length_of edition n m }
    requires m_in_bounds { (m ≤ length starts.old) × (m ≤ length ends.old) }
    ensures starts_after { starts.new
        ≡ fields (drop (starts_at edition n) file.now) m ++ drop m starts.old }
    ensures ends_after { ends.new
        ≡ fields (drop (ends_at edition n m) file.now) m ++ drop m ends.old }
{
    let at = 4 + 2 * n + 2 * package_count(edition, n);
    store_two(file, at, m, starts, m, ends);
}

// The labels of a file of n nodes and m links, stored in their table.
pub fn fill_labels(edition: Edition, file: &[u8], n: usize, m: usize, labels: &mut [u32])
    requires { (length file.now ≡ length_of edition n m) × (n ≤ length labels.old) }
    ensures { labels.new ≡ labels_from edition file.now n ++ drop n labels.old }
{
    let p = package_count(edition, n);
    store_labels(
        stretch(file, 4, n),
        n,
        stretch(file, 4 + 2 * n, p),
        p,
        labels,
    );
}

// The answer on an accepted file of n nodes and m links: 8 where a table is too short, and then no table is changed;
// else N and M, with the stretches at the front of the tables. A first-edition file has no packages, so that their
// table is left as it is, however short.
pub fn fill_fitting(
    edition: Edition,
    file: &[u8],
    n: usize,
    m: usize,
    kinds: &mut [u16],
    packages: &mut [u16],
    starts: &mut [u16],
    ends: &mut [u16],
) -> Result<Size, Refusal>
    requires { (n ≡ nodes_of (in_edition edition file.now)) × (m ≡ links_of (in_edition edition file.now))
        × (length file.now ≡ length_of edition n m) }
    ensures { (role : Role) → first (file_conditions role (in_edition edition file.now)) ≡ accept
        → record { answer = result; reply = read_reply result; kinds = kinds.new; packages = packages.new; starts = starts.new; ends = ends.new }
        ≡ reading role (in_edition edition file.now) kinds.old packages.old
        starts.old ends.old }
{
    if kinds.len() < n {
        return Err(TOO_SHORT);
    }
    let p = package_count(edition, n);
    if packages.len() < p {
        return Err(TOO_SHORT);
    }
    if starts.len() < m {
        return Err(TOO_SHORT);
    }
    if ends.len() < m {
        return Err(TOO_SHORT);
    }
    store_two(file, 4, n, kinds, p, packages);
    fill_links(edition, file, n, m, starts, ends);
    Ok(Size::new(n, m))
}
