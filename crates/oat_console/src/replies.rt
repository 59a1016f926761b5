// The answers to a file, to standard output. A file has at most 4,096 nodes, with two numbers each in
// `rows` and `work`, and at most 512 types; each declaration has two nodes at least; a page has at most 81,937 bytes.
ghost use Rattle.file_sections.specs.Layout.{Laid};

use crate::refusal::print_refusal;
use crate::tally_lines::print_tallies;
use crate::text::Count;
use file_sections::Sections;
use pages::page;
use program_file::{Limits, blank_file, meant};
use std::io::{Result, Write, writer};
use subtyping::question::subtype;
use tallies::tally;
use typing::check::check;

// Checks a file, and prints that it is accepted, or its refusal.
pub(crate) fn answer_check(rt: &HostRuntime, file: &[u8], limits: Limits) -> Result<()> {
    let mut rows = [0u16; 8192];
    let mut work = [0u16; 8192];
    let answer = check(file, limits, &mut rows, &mut work);
    if answer.number != 0 {
        return print_refusal(rt, answer.number, answer.step, answer.place);
    }
    let steps = Count(usize::from(answer.step), "step");
    let pairs = Count(answer.pairs as usize, "pair");
    println!(rt; "accepted: {steps}, {pairs} of types compared")
}

// Checks a file, and prints the page of its rows, or its refusal.
pub(crate) fn answer_page(rt: &HostRuntime, file: &[u8], limits: Limits) -> Result<()> {
    let mut rows = [0u16; 8192];
    let mut work = [0u16; 8192];
    let mut out = [0u8; 81937];
    let answer = page(file, limits, &mut rows, &mut work, &mut out);
    if answer.number != 0 {
        return print_refusal(rt, answer.number, answer.step, answer.place);
    }
    let bytes = answer.bytes;
    writer(rt).write_all(&out[..bytes])
}

// Prints whether one type of a file is below another, or the refusal of the question.
pub(crate) fn answer_subtype(
    rt: &HostRuntime,
    file: &[u8],
    limits: Limits,
    a: usize,
    b: usize,
) -> Result<()> {
    match subtype(file, limits, a, b) {
        Ok(answer) => {
            let says = if answer.holds { "yes" } else { "no" };
            let not = if answer.holds { "" } else { " not" };
            let pairs = Count(usize::from(answer.pairs), "pair");
            println!(rt; "{says}: type {a} is{not} below type {b}, {pairs} of types compared")
        }
        Err(refusal) => print_refusal(rt, refusal.number(), 0, 0),
    }
}

// Checks a readable file, and prints its tallies or its refusal.
fn answer_tally_read(
    rt: &HostRuntime,
    file: &[u8],
    limits: Limits,
    sections: Sections,
) -> Result<()>
    requires { Laid file.now sections }
{
    let mut rows = [0u16; 8192];
    let mut work = [0u16; 8192];
    let mut by_type = [0u16; 512];
    let mut by_declaration = [0u16; 2048];
    let answer = tally(
        file,
        limits,
        &mut rows,
        &mut work,
        &mut by_type,
        &mut by_declaration,
    );
    if answer.number != 0 {
        return print_refusal(rt, answer.number, answer.step, answer.place);
    }
    print_tallies(rt, file, sections, &by_type, &by_declaration)
}

// Checks a file, and prints its tallies or its refusal.
pub(crate) fn answer_tally(rt: &HostRuntime, file: &[u8], limits: Limits) -> Result<()> {
    match program_file::read(file, limits) {
        Ok(sections) => {
            let blank = blank_file();
            answer_tally_read(rt, meant(file, &blank), limits, sections)
        }
        Err(unreadable) => print_refusal(rt, unreadable.number(), 0, 0),
    }
}
