// The words of a command.
ghost use Rattle.std.specs.Prelude.{◌≡◌, ◌≤◌, length};
ghost use Rattle.oat_console.specs.Numbers.{with_digit, number_in};

use program_file::{Limits, widest};
use std::cmp::min;
use std::env::FillError;
use std::io;
use std::io::Write;
use std::rt::Env;

// A number and a digit after it; 65,536 where that is as much or more, which is over every count and limit.
#[tactic(auto, unfolding(crate::specs::Numbers::with_digit))]
fn with_digit(number: usize, digit: u8) -> usize
    requires { (number ≤ 65536) × (48 ≤ digit) × (digit ≤ 57) }
    ensures { result ≡ with_digit number digit }
{
    min(65536, 10 * number + usize::from(digit - b'0'))
}

// The number that a word of digits says; none where it is no such word.
pub(crate) fn number_in(word: &[u8]) -> Option<usize>
    ensures { result ≡ number_in word.now }
{
    if word.is_empty() {
        return None;
    }
    let mut number = 0;
    for &byte in word {
        if !byte.is_ascii_digit() {
            return None;
        }
        number = with_digit(number, byte);
    }
    Some(number)
}

// Puts a word of the command at the front of a buffer, and answers its length: 0 where there is no such word, or where it is longer than the buffer.
pub(crate) fn word_at(rt: &HostRuntime, place: usize, word: &mut [u8]) -> usize
    ensures { result ≤ length word.new }
{
    match rt.arg(place, word) {
        Ok(length) => length,
        Err(_) => 0,
    }
}

// How many words the command has, the program's own name among them.
pub(crate) fn word_count(rt: &HostRuntime) -> usize {
    let mut word = [0u8; 1];
    for place in 0..usize::MAX {
        if let Err(FillError::NotPresent) = rt.arg(place, &mut word) {
            return place;
        }
    }
    usize::MAX
}

// The number that the word at `place` says; none where there is no such word.
pub(crate) fn number_at(rt: &HostRuntime, place: usize) -> Option<usize> {
    let mut word = [0u8; 4096];
    let length = word_at(rt, place, &mut word);
    number_in(&word[..length])
}

// A limit that a word names.
#[derive(Clone, Copy)]
enum Limit {
    Parts,
    Depth,
}

// The limit that the word at `place` names, if any.
fn limit_at(rt: &HostRuntime, place: usize) -> Option<Limit> {
    let mut word = [0u8; 4096];
    let length = word_at(rt, place, &mut word);
    match &word[..length] {
        b"--parts" => Some(Limit::Parts),
        b"--depth" => Some(Limit::Depth),
        _ => None,
    }
}

// The limits with one of them set.
fn with_limit(limits: Limits, limit: Limit, number: usize) -> Limits {
    match limit {
        Limit::Parts => Limits {
            parts: number,
            ..limits
        },
        Limit::Depth => Limits {
            depth: number,
            ..limits
        },
    }
}

// Why words set no limits: the one at a place names none, or no number stands after it.
#[derive(Clone, Copy, PartialEq, Eq)]
pub enum Unset {
    Unknown(usize),
    NoNumber(usize),
}

// The limits that the words from `first` on set, of this many words in all; those that no word sets are the widest.
pub(crate) fn limits_from(rt: &HostRuntime, first: usize, words: usize) -> Result<Limits, Unset> {
    let mut limits = widest();
    for place in (first..words).step_by(2) {
        let limit = limit_at(rt, place).ok_or(Unset::Unknown(place))?;
        if words - place < 2 {
            return Err(Unset::NoNumber(place));
        }
        let number = number_at(rt, place + 1).ok_or(Unset::NoNumber(place))?;
        limits = with_limit(limits, limit, number);
    }
    Ok(limits)
}

// Says on standard error what is wrong, and how the words go.
pub(crate) fn complain(rt: &HostRuntime, problem: &[u8], word: &[u8]) -> io::Result<()> {
    let mut to = rt.stderr();
    to.write_all(b"oat: ")?;
    to.write_all(problem)?;
    to.write_all(word)?;
    to.write_all(
        b"\nusage: oat check FILE\n       oat page FILE\n       oat subtype FILE A B\n       oat tally FILE\nand, last, --parts N (1 to 200), --depth N (1 to 100)\n",
    )
}

// Complains about the word at `place`.
pub(crate) fn complain_at(rt: &HostRuntime, problem: &[u8], place: usize) -> io::Result<()> {
    let mut word = [0u8; 4096];
    let length = word_at(rt, place, &mut word);
    complain(rt, problem, &word[..length])
}
