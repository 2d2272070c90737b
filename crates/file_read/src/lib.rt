// Reading a circuit file in a role, or refusing it by number.
#![tactic(auto)]

ghost use Rattle.std.specs.Prelude.{◌≡◌};
ghost use Rattle.graph.specs.Circuit.{circuit};
ghost use Rattle.file_format.specs.Layout.{in_edition};
ghost use Rattle.file_format.specs.Reading.{reading, TablesRoom, Loaded};
ghost use Rattle.file_format.specs.Reply.{read_reply};

use file_check::{check_links, check_size};
use file_fields::field_at;
use file_fill::{fill_fitting, fill_labels, fill_links};
use file_format::{Board, Edition, FileRead, Refusal, Role, Size};

// Reads a file for a call that goes on with its circuit, into tables that have room for every file of the role: N and M,
// and a pattern's radius, with the labels, the starts and the ends at the front of the tables; or the refusal. The links
// are stored once, and tested where they stand.
pub fn load(
    role: Role,
    edition: Edition,
    file: &[u8],
    labels: &mut [u32],
    starts: &mut [u16],
    ends: &mut [u16],
) -> Result<FileRead, Refusal>
    requires { TablesRoom role (circuit labels.old starts.old ends.old) }
    ensures { Loaded role (in_edition edition file.now) result
        (circuit labels.new starts.new ends.new) }
{
    check_size(role, edition, file)?;
    let n = field_at(file, 0) as usize;
    let m = field_at(file, 1) as usize;
    fill_labels(edition, file, n, m, labels);
    fill_links(edition, file, n, m, starts, ends);
    let radius = check_links(role, n, &starts[..m], &ends[..m])?;
    Ok(FileRead {
        nodes: n,
        links: m,
        radius,
    })
}

// Reads a file of an edition in a role: N and M, with the kinds, the packages where the edition has them, the starts
// and the ends at the front of the four tables; or the refusal, which leaves every table as it was. The file is read
// into tables of the call's own first.
pub fn read(
    role: Role,
    edition: Edition,
    file: &[u8],
    kinds: &mut [u16],
    packages: &mut [u16],
    starts: &mut [u16],
    ends: &mut [u16],
) -> Result<Size, Refusal>
    ensures { record { answer = result; reply = read_reply result; kinds = kinds.new; packages = packages.new; starts = starts.new; ends = ends.new }
        ≡ reading role (in_edition edition file.now) kinds.old packages.old
        starts.old ends.old }
{
    let mut l = [0u32; Board::MAX_NODES];
    let mut s = [0u16; Board::MAX_LINKS];
    let mut e = [0u16; Board::MAX_LINKS];
    let loaded = load(role, edition, file, &mut l, &mut s, &mut e)?;
    let n = loaded.nodes;
    let m = loaded.links;
    fill_fitting(edition, file, n, m, kinds, packages, starts, ends)
}
