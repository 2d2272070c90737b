// Careful reading. A file is read by its name into a buffer, until the buffer is full or the file ends, and the answer
// says what became of it. What the system answers is judged by functions of their own, each with an equation.
#![tactic(auto)]

ghost use Rattle.std.specs.Prelude.{◌≡◌, ◌≤◌, ltb, length};
ghost use Rattle.input.specs.Reading.{is_open, is_absent, unopened_of, ended_of, Tells, Within};

use output::number_of;
use std::env::FillError;
use std::fs::File;
use std::io;
use std::io::Read;
use std::rt::Env;

// Why a file was not read: there is no such name, or it cannot be read.
#[derive(Clone, Copy, Debug, PartialEq, Eq)]
pub enum ReadError {
    Absent,
    Unreadable,
}

// C's errno where there is no such name.
const ENOENT: i32 = 2;

// How many arguments the program was started with, its own name among them: the system names none from there on.
pub fn arg_count(rt: &HostRuntime) -> usize {
    for i in 0..usize::MAX {
        let mut front = [0u8; 1];
        if let Err(FillError::NotPresent) = rt.arg(i, &mut front) {
            return i;
        }
    }
    usize::MAX
}

// Whether a program was told anything besides its own name.
pub fn is_told(arguments: usize) -> bool
    ensures { result ≡ ltb 1 arguments }
{
    arguments > 1
}

// Whether what the system answered is an open file: one of the number 0 is, where standard input is closed.
#[tactic(auto, unfolding(crate::specs::Reading::is_open))]
fn is_open(opened: &io::Result<File>) -> bool
    ensures { result ≡ is_open opened.now }
{
    opened.is_ok()
}

// Whether a file that cannot be opened is absent.
#[tactic(auto, unfolding(crate::specs::Reading::is_absent, output::specs::Writing::is_error))]
fn absent(error: i32) -> bool
    ensures { result ≡ is_absent error }
{
    if error == ENOENT {
        return true;
    }
    false
}

// Why a file was not read that was not opened, for this error.
#[tactic(auto, unfolding(crate::specs::Reading::unopened_of))]
fn unopened(error: i32) -> ReadError
    ensures { result ≡ unopened_of error }
{
    if absent(error) {
        return ReadError::Absent;
    }
    ReadError::Unreadable
}

// What became of an open file whose reading stopped after so many bytes, ahead of the buffer's end, and of which one
// read more answered this: no byte is the file's end, and anything else a read that failed.
#[tactic(auto, unfolding(crate::specs::Reading::ended_of, crate::specs::Reading::is_end))]
fn ended(size: usize, more: &io::Result<usize>) -> Result<usize, ReadError>
    ensures { result ≡ ended_of size more.now }
{
    match more {
        Ok(0) => Ok(size),
        _ => Err(ReadError::Unreadable),
    }
}

// One read more, of at least a byte: a read of none would answer 0 as the file's end does.
fn read_more(file: &mut File, more: &mut [u8]) -> io::Result<usize>
    requires { 1 ≤ length more.old }
{
    file.read(more)
}

// What became of an open file of which so many bytes were read, to where there is this much room: a read that failed is
// told from the end by one read more. It is not absent, and be it empty; and where the buffer is full, it was read.
fn outcome(file: &mut File, size: usize, room: usize) -> Result<usize, ReadError>
    ensures { Tells size room result }
{
    if size == room {
        return Ok(size);
    }
    let mut more = [0u8; 1];
    ended(size, &read_more(file, &mut more))
}

// Reads until the buffer is full, the file ends or a read fails, and answers how many bytes stand at its front.
fn read_full(file: &mut File, buf: &mut [u8]) -> usize
    ensures { result ≤ length buf.new }
{
    let mut done: usize = 0;
    // A while: a read takes as many bytes as it finds.
    while done < buf.len() {
        match file.read(&mut buf[done..]) {
            Ok(0) => return done,
            Ok(size) => done += size,
            Err(_) => return done,
        }
    }
    done
}

// Reads from an open file until the buffer is full or the file ends.
fn read_open(mut file: File, buf: &mut [u8]) -> Result<usize, ReadError>
    ensures { Within (length buf.new) result }
{
    let size = read_full(&mut file, buf);
    outcome(&mut file, size, buf.len())
}

// C's errno of what the system answered in place of an open file.
fn error_of(opened: &io::Result<File>) -> i32 {
    match opened {
        Ok(_) => 0,
        Err(error) => number_of(error),
    }
}

// The bytes of a file by its name: so many of them stand at the front of the buffer.
#[tactic(auto, using(crate::proofs::Reading::open_ok))]
pub fn load(rt: &HostRuntime, name: &str, buf: &mut [u8]) -> Result<usize, ReadError>
    ensures { Within (length buf.new) result }
{
    let opened = File::open(rt, name);
    if !is_open(&opened) {
        return Err(unopened(error_of(&opened)));
    }
    read_open(opened.unwrap(), buf)
}

// Tells on standard error which file cannot be read.
pub fn cannot_read(rt: &HostRuntime, name: &str) {
    let _told = eprintln!(rt; "cannot read {name}");
}
