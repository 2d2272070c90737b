// The words that the program `loader` is told: the four that ask for a test board, each a number in decimal digits,
// below 2^32.
#![tactic(auto)]

ghost use Rattle.std.specs.Prelude.{◌≡◌, ◌≤◌, IfOk, eqb, length};
ghost use Rattle.loader_words.specs.Words.{word_of, heard_of, Heard, WordsHeard, asked_by};

use std::env::FillError;
use std::rt::Env;

// An argument: its index, what the system answered when it was asked for, its length or an error, and the number that it
// is, if it is one.
#[derive(Clone, Copy)]
pub struct Argument {
    index: usize,
    answer: Result<usize, FillError>,
    word: Option<u32>,
}

// What the program was told: how many arguments, its own name among them, and the four behind that.
#[derive(Clone, Copy)]
pub struct Told {
    count: usize,
    seed: Argument,
    n: Argument,
    m: Argument,
    k: Argument,
}

// The numbers that the four words which ask for a test board are, `None` for a word that is none.
#[derive(Clone, Copy)]
pub struct Asked {
    pub seed: Option<u32>,
    pub n: Option<u32>,
    pub m: Option<u32>,
    pub k: Option<u32>,
}

// The number that a word is, if it is one.
fn number(word: &[u8]) -> Option<u32>
    ensures { result ≡ word_of word.now }
{
    if word.is_empty() {
        return None;
    }
    let mut value: u64 = 0;
    for &byte in word {
        if !byte.is_ascii_digit() {
            return None;
        }
        value = 10 * value + (byte - 48) as u64;
        if value >= 4294967296 {
            return None;
        }
    }
    Some(value as u32)
}

// The number that an argument is, from what the system answered when it was asked for: no error where the word is
// whole.
#[tactic(auto, unfolding(crate::specs::Words::heard_of))]
fn number_of(answer: Result<usize, FillError>, buf: &[u8]) -> Option<u32>
    requires { IfOk answer (λ size. size ≤ length buf.now) }
    ensures { result ≡ heard_of answer buf.now }
{
    match answer {
        Ok(size) => number(&buf[..size]),
        Err(_) => None,
    }
}

// Asks the system for an argument by its index, into a lent buffer, and hears what number it is.
fn hear(rt: &HostRuntime, index: usize, buf: &mut [u8]) -> Argument
    ensures { Heard index buf.new result }
{
    let answer = rt.arg(index, buf);
    let word = number_of(answer, buf);
    Argument {
        index,
        answer,
        word,
    }
}

// Whether a program was told four words besides its own name.
fn are_four(arguments: usize) -> bool
    ensures { result ≡ eqb arguments 5 }
{
    arguments == 5
}

// The words that the program was told, each read into a buffer of its own: none are numbers where they are not four.
pub fn read_words(
    rt: &HostRuntime,
    seed: &mut [u8],
    n: &mut [u8],
    m: &mut [u8],
    k: &mut [u8],
) -> Told
    ensures { WordsHeard seed.new n.new m.new k.new result }
{
    let count = input::arg_count(rt);
    let first = hear(rt, 1, seed);
    let second = hear(rt, 2, n);
    let third = hear(rt, 3, m);
    let fourth = hear(rt, 4, k);
    Told {
        count,
        seed: first,
        n: second,
        m: third,
        k: fourth,
    }
}

// The four words that ask for a test board: none are numbers where they are not four.
#[tactic(auto, unfolding(crate::specs::Words::asked_by))]
pub fn asked_by(told: Told) -> Asked
    ensures { result ≡ asked_by told }
{
    if !are_four(told.count) {
        return Asked {
            seed: None,
            n: None,
            m: None,
            k: None,
        };
    }
    Asked {
        seed: told.seed.word,
        n: told.n.word,
        m: told.m.word,
        k: told.k.word,
    }
}
