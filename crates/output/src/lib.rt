// Careful writing. All of some bytes go to standard output, or the answer says that they did not. A write that takes
// only some of them is gone on with, and one that was interrupted is tried again. After one that failed nothing more is
// written: what comes out is always a front of the bytes.
#![tactic(auto)]

ghost use Rattle.std.specs.Prelude.{true, cond, ◌≡◌, ◌≤◌, pos, Some, length, drop};
ghost use Rattle.output.specs.Writing.{tried_again, number_of, All};

use std::io::Error;
use std::os::fd::AsRawFd;
use std::thread;

// How often in a row a write that takes nothing is tried: an output that does not block may be full for a while, and
// nothing here can wait for it. That is some seconds.
const TRIES: u32 = 10000000;

// C's errno after a write that was interrupted, and after one to an output that does not block and was full.
const EINTR: i32 = 4;

const EAGAIN: i32 = 11;

// Whether a write that took nothing is tried again: it was interrupted, or the output does not block and was full.
#[tactic(auto, unfolding(crate::specs::Writing::tried_again, crate::specs::Writing::is_error))]
fn again(error: i32) -> bool
    ensures { result ≡ tried_again error }
{
    if error == EINTR {
        return true;
    }
    if error == EAGAIN {
        return true;
    }
    false
}

// C's errno of an error, 0 where it is not the system's.
pub fn number_of(error: &Error) -> i32
    ensures { result ≡ number_of error.now }
{
    error.raw_os_error().unwrap_or(0)
}

// Lets others run before a write is tried again.
fn pause(error: i32)
    requires { tried_again error ≡ true }
{
    thread::yield_now();
}

// Hands the bytes after the first `done` to standard output until it takes some, and answers how many, 0 where it
// fails. The number of the last error is noted.
fn take_some<W: Print + AsRawFd>(
    out: &W,
    failure: &mut i32,
    bytes: &[u8],
    done: usize,
    rest: &[u8],
) -> usize
    requires { (W.raw_fd out.now ≡ Some (pos 1)) × (rest.now ≡ drop done bytes.now) }
    ensures { result ≤ length rest.now }
{
    for _ in 0..TRIES {
        match out.write_some(rest) {
            Ok(taken) => return taken,
            Err(error) => {
                let number = number_of(&error);
                *failure = number;
                if !again(number) {
                    return 0;
                }
                pause(number);
            }
        }
    }
    0
}

// Writes all of the bytes to standard output, and answers how many there are; or stops at the first write that fails or
// cannot be completed, whose error is noted by its number, and answers `None`.
#[tactic(auto, unfolding(crate::specs::Writing::All))]
pub fn write_whole(rt: &HostRuntime, failure: &mut i32, bytes: &[u8]) -> Option<usize>
    ensures { All bytes.now result }
{
    let mut done: usize = 0;
    // A while: a write takes as many bytes as it likes.
    while done < bytes.len() {
        let taken = take_some(&rt.stdout(), failure, bytes, done, &bytes[done..]);
        if taken == 0 {
            return None;
        }
        done += taken;
    }
    Some(done)
}

// Hands bytes to standard output, to which nothing was handed before, and notes how many there are. The answer says
// whether they were taken.
#[tactic(auto, unfolding(crate::specs::Writing::All))]
pub fn hand(rt: &HostRuntime, failure: &mut i32, handed: &mut usize, bytes: &[u8]) -> bool
    requires { handed.old ≡ 0 }
    ensures { handed.new ≡ cond result (length bytes.now) 0 }
{
    let Some(size) = write_whole(rt, failure, bytes) else {
        return false;
    };
    *handed = size;
    true
}

// Tells a line on standard error. Where that fails there is nowhere to tell it.
pub fn tell(rt: &HostRuntime, line: &str) {
    let _told = eprintln!(rt; "{line}");
}

// C's words for an error: those that it displays, ahead of its number.
fn words_of(text: &str) -> &str {
    match text.split_once(" (os error ") {
        Some((words, _)) => words,
        None => text,
    }
}

// Tells on standard error what failed, and C's words for the number of the error.
pub fn fail(rt: &HostRuntime, what: &str, failure: i32) {
    let error = Error::from_raw_os_error(failure);
    let Ok(text) = format!(in rt.alloc(); "{error}") else {
        tell(rt, what);
        return;
    };
    let words = words_of(text.as_str());
    let _told = eprintln!(rt; "{what}: {words}");
}
