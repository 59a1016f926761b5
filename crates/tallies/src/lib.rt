// Tallies of an accepted file's expressions, by type and by declaration (document 02, (iv)).
#![tactic(auto)]

mod counts;
mod walk;

ghost use Rattle.std.specs.Prelude.{◌≡◌};
ghost use Rattle.program_file.specs.Reading.{setting_of};
ghost use Rattle.tallies.specs.Tally.{answer, Tallied};
ghost use Rattle.tallies.specs.Walk.{ReadyAccepted, ToldAccepted};

use crate::walk::tally_declarations;
use file_sections::Sections;
use program_file::{Limits, blank_file, meant};
use type_index::index::index_types;
use typing::check::check_sections;
use writing::copy;

// The check's number, step and place; 19 where a tally has no room. These are the numbers that C gets (`oat_tally`).
#[derive(Clone, Copy)]
pub struct Answer {
    pub number: u16,
    pub step: u16,
    pub place: u16,
}

// An answer without step and place.
fn bare(number: u16) -> Answer
    ensures { result ≡ answer number 0 0 }
{
    Answer {
        number,
        step: 0,
        place: 0,
    }
}

// Writes both tallies of an accepted file, and answers whether they have room; where either has none, neither is changed.
fn tally_accepted(
    file: &[u8],
    sections: Sections,
    rows: &[u16],
    by_type: &mut [u16],
    by_declaration: &mut [u16],
) -> bool
    requires { ReadyAccepted file.now sections rows.now }
    ensures { ToldAccepted file.now rows.now by_type.old by_declaration.old by_type.new by_declaration.new result }
{
    let mut index = [0u16; 2624];
    let mut types = [0u16; 512];
    let mut declarations = [0u16; 2048];
    index_types(file, sections, &mut index);
    let count = tally_declarations(file, sections, &index, rows, &mut types, &mut declarations);
    if by_type.len() < sections.types {
        return false;
    }
    if by_declaration.len() < count {
        return false;
    }
    copy(&types, by_type, sections.types);
    copy(&declarations, by_declaration, count);
    true
}

// Checks a file and, where it is accepted, writes how many expressions it has of each type and in each declaration.
pub fn tally(
    file: &[u8],
    limits: Limits,
    rows: &mut [u16],
    work: &mut [u16],
    by_type: &mut [u16],
    by_declaration: &mut [u16],
) -> Answer
    ensures { Tallied (setting_of limits) file.now rows.old work.old by_type.old by_declaration.old rows.new work.new by_type.new by_declaration.new result }
{
    let read = program_file::read(file, limits);
    let Ok(sections) = read else {
        return bare(program_file::number(read));
    };
    let checked = check_sections(file, sections, &mut *rows, work);
    let answer = Answer {
        number: checked.number,
        step: checked.step,
        place: checked.place,
    };
    if answer.number != 0 {
        return answer;
    }
    let blank = blank_file();
    if !tally_accepted(
        meant(file, &blank),
        sections,
        &*rows,
        by_type,
        by_declaration,
    ) {
        return bare(19);
    }
    answer
}
