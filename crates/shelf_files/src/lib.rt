// The files of a shelf, read one after another: `p00.cir` to `p15.cir` in the folder of the program, up to the first
// that is absent. Their bytes lie one behind another, and of each is noted what became of it.
#![tactic(auto)]

ghost use Rattle.std.specs.Prelude.{◌≡◌, ◌+◌, ◌*◌, ◌<◌, ◌≤◌, length, take, set};
ghost use Rattle.call_shelf.specs.Shelf.{most_files};
ghost use Rattle.input.specs.Reading.{Within};
ghost use Rattle.std.specs.Str.{IsAscii};
ghost use Rattle.shelf_files.specs.Reading.{shelf_name_of, most_bytes, noted, next_after, FileReached, shelf_end};

use call_shelf::FILES;
use file_format::Pattern;
use input::ReadError;
use std::str;

// A byte more than the longest second-edition pattern that is accepted: so that a longer file is refused by its length.
const FILE_BYTES: usize = 4 + 4 * Pattern::MAX_NODES + 4 * Pattern::MAX_LINKS + 1;

pub const SHELF_BYTES: usize = FILES * FILE_BYTES;

// What is noted of a file that is absent, and of one that cannot be read; of any other it is how many bytes were read.
// (Numbers and no Result: the notes are the lengths by which the shelf's bytes are told apart.)
const ABSENT: u32 = 65536;

const UNREADABLE: u32 = 65537;

// How the reading goes on after a file: with the next one, whose bytes go to this place; or the shelf ends here; or the
// program gives up.
#[derive(Clone, Copy)]
enum Next {
    Further(usize),
    Ends,
    GivesUp,
}

// The file of this number is there and cannot be read.
#[derive(Clone, Copy)]
pub struct UnreadableFile(pub usize);

// The name of the i-th file: its two digits.
fn name_of(i: usize) -> [u8; 7]
    requires { i < 100 }
    ensures { result ≡ shelf_name_of i }
{
    [
        b'p',
        48 + (i / 10) as u8,
        48 + (i % 10) as u8,
        b'.',
        b'c',
        b'i',
        b'r',
    ]
}

// A name as text.
#[tactic(auto, using(crate::proofs::Reading::text_utf8))]
fn text_of(name: &[u8]) -> &str
    requires { IsAscii name.now }
    ensures { result.now ≡ name.now }
{
    str::from_utf8(name).unwrap()
}

// The bytes of the i-th file, by its name.
fn load_named(rt: &HostRuntime, i: usize, name: &str, buf: &mut [u8]) -> Result<usize, ReadError>
    requires { name.now ≡ shelf_name_of i }
    ensures { Within (length buf.new) result }
{
    input::load(rt, name, buf)
}

// The bytes of the i-th file.
#[tactic(auto, using(crate::proofs::Reading::name_ascii))]
fn load(rt: &HostRuntime, i: usize, buf: &mut [u8]) -> Result<usize, ReadError>
    requires { i < 100 }
    ensures { Within (length buf.new) result }
{
    let name = name_of(i);
    load_named(rt, i, text_of(&name), buf)
}

// What is noted of a file.
fn note_file(found: Result<usize, ReadError>) -> u32
    requires { Within most_bytes found }
    ensures { result ≡ noted found }
{
    match found {
        Ok(size) => size as u32,
        Err(ReadError::Absent) => ABSENT,
        Err(ReadError::Unreadable) => UNREADABLE,
    }
}

// Reads the i-th file to a place of the bytes, behind those of the files before it, and notes what became of it. All of
// those are there, and their bytes stay.
#[tactic(auto, using(crate::proofs::Reading::within_more))]
fn read_one(
    rt: &HostRuntime,
    i: usize,
    at: usize,
    bytes: &mut [u8],
    notes: &mut [u32],
) -> Result<usize, ReadError>
    requires i_in_bounds { (i < length notes.old) × (i < 100) × (at ≤ 65536) × (at + most_bytes ≤ length bytes.old) }
    requires file_reached { FileReached notes.old i at }
    ensures within { Within most_bytes result × (notes.new ≡ set notes.old i (noted result)) }
    ensures bytes_unchanged { take at bytes.new ≡ take at bytes.old }
{
    let end = at + FILE_BYTES;
    let found = load(rt, i, &mut bytes[at..end]);
    notes[i] = note_file(found);
    found
}

// How the reading goes on: it ends at the first file that is absent.
fn after(found: Result<usize, ReadError>, at: usize) -> Next
    requires { (at ≤ 65536) × Within most_bytes found }
    ensures { result ≡ next_after found at }
{
    match found {
        Ok(size) => Next::Further(at + size),
        Err(ReadError::Absent) => Next::Ends,
        Err(ReadError::Unreadable) => Next::GivesUp,
    }
}

// Reads the files one after another, the bytes of each behind those of the one before, and notes what became of each.
// The answer is how many files were read.
pub fn read_all(
    rt: &HostRuntime,
    bytes: &mut [u8],
    notes: &mut [u32],
) -> Result<usize, UnreadableFile>
    requires { (most_files * most_bytes ≤ length bytes.old) × (length notes.old ≡ most_files) }
    ensures { result ≡ shelf_end notes.new }
{
    let mut at: usize = 0;
    for i in 0..FILES {
        let found = read_one(rt, i, at, bytes, notes);
        let next = after(found, at);
        match next {
            Next::Further(past) => {
                at = past;
            }
            Next::Ends => return Ok(i),
            Next::GivesUp => return Err(UnreadableFile(i)),
        }
    }
    Ok(FILES)
}

// Tells on standard error that the i-th file cannot be read.
#[tactic(auto, using(crate::proofs::Reading::name_ascii))]
pub fn cannot_read(rt: &HostRuntime, i: usize)
    requires { i < 100 }
{
    let name = name_of(i);
    input::cannot_read(rt, text_of(&name));
}
