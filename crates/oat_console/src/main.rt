// The console: `oat VERB FILE` answers a program file by its name. `check` says whether it is accepted, `page` prints a page of its rows, `subtype`
// whether one of its types is below another, `tally` how many expressions it has of each type and in each declaration; or why it is refused, in
// words. Words that are no command, and a file that cannot be opened or read, are told on standard error, with nothing on standard output.
#![tactic(auto)]

mod refusal;
mod replies;
mod tally_lines;
mod text;
mod words;

use crate::replies::{answer_check, answer_page, answer_subtype, answer_tally};
use crate::words::{Unset, complain, complain_at, limits_from, number_at, word_at, word_count};
use input_output::failure::fail;
use input_output::input::read_all;
use program_file::Limits;
use std::fs;
use std::fs::File;
use std::io::Result;
use std::rt::Env;

// What is asked of a file.
#[derive(Clone, Copy)]
pub enum Question {
    Check,
    Page,
    Subtype(usize, usize),
    Tally,
}

// Answers a file.
fn answer(rt: &HostRuntime, question: Question, file: &[u8], limits: Limits) -> Result<()> {
    match question {
        Question::Check => answer_check(rt, file, limits),
        Question::Page => answer_page(rt, file, limits),
        Question::Subtype(a, b) => answer_subtype(rt, file, limits, a, b),
        Question::Tally => answer_tally(rt, file, limits),
    }
}

// Answers an open file, or says on standard error why it cannot be read or the answer cannot be printed. A file has at most 45,068 bytes, so that
// with one more it is refused as its bytes say.
fn answer_open(
    rt: &HostRuntime,
    question: Question,
    limits: Limits,
    mut from: File,
    path: &str,
) -> Result<()> {
    let mut file = [0u8; 45069];
    let length = match read_all(&mut from, &mut file) {
        Ok(length) => length,
        Err(error) => return fail(rt, path, error),
    };
    match answer(rt, question, &file[..length], limits) {
        Ok(()) => Ok(()),
        Err(error) => fail(rt, "standard output", error),
    }
}

// Answers the file of a path.
fn answer_path(rt: &HostRuntime, question: Question, limits: Limits, path: &[u8]) -> Result<()> {
    let Ok(path) = str::from_utf8(path) else {
        return eprintln!(rt; "FILE: Invalid or incomplete multibyte or wide character");
    };
    match fs::open(rt, path) {
        Ok(from) => answer_open(rt, question, limits, from, path),
        Err(error) => fail(rt, path, error),
    }
}

// Answers the file that the second word names.
fn answer_named(rt: &HostRuntime, question: Question, limits: Limits) -> Result<()> {
    let mut path = [0u8; 4096];
    match rt.arg(2, &mut path) {
        Ok(length) => answer_path(rt, question, limits, &path[..length]),
        Err(_) => eprintln!(rt; "FILE: File name too long"),
    }
}

// Answers the question under the limits that the words from `first` on set, of this many words in all.
fn answer_under(rt: &HostRuntime, question: Question, first: usize, words: usize) -> Result<()> {
    if words < 3 {
        return complain(rt, b"no FILE", b"");
    }
    match limits_from(rt, first, words) {
        Ok(limits) => answer_named(rt, question, limits),
        Err(Unset::Unknown(place)) => complain_at(rt, b"unknown word: ", place),
        Err(Unset::NoNumber(place)) => complain_at(rt, b"no number after ", place),
    }
}

// Answers the subtype question on the two types that the words after FILE name.
fn answer_types(rt: &HostRuntime, words: usize) -> Result<()> {
    if words < 5 {
        return complain(rt, b"subtype takes FILE, A and B", b"");
    }
    let Some(a) = number_at(rt, 3) else {
        return complain_at(rt, b"no number: ", 3);
    };
    let Some(b) = number_at(rt, 4) else {
        return complain_at(rt, b"no number: ", 4);
    };
    answer_under(rt, Question::Subtype(a, b), 5, words)
}

// What the first word says.
#[derive(Clone, Copy)]
enum Verb {
    Check,
    Page,
    Subtype,
    Tally,
}

fn verb_named(word: &[u8]) -> Option<Verb> {
    match word {
        b"check" => Some(Verb::Check),
        b"page" => Some(Verb::Page),
        b"subtype" => Some(Verb::Subtype),
        b"tally" => Some(Verb::Tally),
        _ => None,
    }
}

// Does what the verb says, where there are this many words, the program's own name among them.
fn run(rt: &HostRuntime, verb: Option<Verb>, words: usize) -> Result<()> {
    match verb {
        Some(Verb::Check) => answer_under(rt, Question::Check, 3, words),
        Some(Verb::Page) => answer_under(rt, Question::Page, 3, words),
        Some(Verb::Subtype) => answer_types(rt, words),
        Some(Verb::Tally) => answer_under(rt, Question::Tally, 3, words),
        None => complain_at(rt, b"unknown verb: ", 1),
    }
}

// A verb that is longer than the buffer is taken for an empty one, which is unknown too.
fn main(rt: HostRuntime) -> Result<()> {
    let mut word = [0u8; 16];
    let length = word_at(&rt, 1, &mut word);
    let words = word_count(&rt);
    if words < 2 {
        return complain(&rt, b"no verb", b"");
    }
    run(&rt, verb_named(&word[..length]), words)
}
