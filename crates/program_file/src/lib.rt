// Reads a program file (document 01, 'The program file'): the bytes are refused under 1 to 5, or they are the file of one
// program. Before them comes 25, a limit out of its range (document 02, (xi)). Zero bytes mean the blank file (document 02, (v)).
#![tactic(auto)]

ghost use Rattle.std.specs.Prelude.{◌≡◌, ◌≤◌};
ghost use Rattle.oat.specs.ProgramFile.{from_one_to, in_range, blank_file, or_else};
ghost use Rattle.program_file.specs.Reading.{setting_of, reading_within, reading_of, IsNumberOf, ReadsTables};

use file_sections::{Sections, Unreadable};

// The two limits: how many parts a type has at most, from 1 to 200, and how deep nodes are at most, from 1 to 100.
#[derive(Clone, Copy)]
pub struct Limits {
    pub parts: usize,
    pub depth: usize,
}

// Document 01's limits, the widest.
pub fn widest() -> Limits
    ensures { result ≡ record { parts = 200; depth = 100 } }
{
    Limits {
        parts: 200,
        depth: 100,
    }
}

// Whether a limit is from 1 to `most`, both ends in.
#[tactic(auto, unfolding(oat::specs::ProgramFile::from_one_to))]
fn from_one_to(most: usize, limit: usize) -> bool
    ensures { result ≡ from_one_to most limit }
{
    (1..=most).contains(&limit)
}

// Whether both limits are in range.
#[tactic(auto, unfolding(oat::specs::ProgramFile::in_range))]
fn in_range(limits: Limits) -> bool
    ensures { result ≡ in_range (setting_of limits) }
{
    from_one_to(200, limits.parts) && from_one_to(100, limits.depth)
}

// The blank file, which zero bytes mean: four types, of kinds 0 to 3, and nothing else.
pub fn blank_file() -> [u8; 44]
    ensures { result ≡ blank_file }
{
    let mut file = [0u8; 44];
    file[0] = 4;
    file[10] = 1;
    file[18] = 2;
    file[26] = 3;
    file
}

// The bytes that a file means, where `blank` is the blank file: its own, or for zero bytes those of `blank`.
pub fn meant<'a>(file: &'a [u8], blank: &'a [u8; 44]) -> &'a [u8]
    ensures { result.now ≡ or_else blank.now file.now }
{
    if file.len() == 0 {
        return blank;
    }
    file
}

// Reads a file; a limit out of its range is refused under 25, before everything else. The sections say where the records stand in the bytes that
// are meant.
pub fn read(file: &[u8], limits: Limits) -> Result<Sections, Unreadable>
    ensures value { result ≡ reading_of (setting_of limits) file.now }
    ensures reads_tables { ReadsTables (setting_of limits) file.now result }
{
    if !in_range(limits) {
        return Err(Unreadable::Limits);
    }
    let blank = blank_file();
    read_within(meant(file, &blank), limits)
}

// Reads bytes that are there, within the limits.
#[tactic(auto, unfolding(crate::specs::Reading::reading_within))]
fn read_within(file: &[u8], limits: Limits) -> Result<Sections, Unreadable>
    requires { limits.parts ≤ 200 }
    ensures { result ≡ reading_within (setting_of limits) file.now }
{
    let sections = file_sections::layout::sections(file)?;
    if !type_tables::types::types_right(file, sections, limits.parts) {
        return Err(Unreadable::Types);
    }
    if !type_tables::tables::tables_right(file, sections) {
        return Err(Unreadable::Tables);
    }
    if !node_tree::tree::trees_right(file, sections, limits.depth) {
        return Err(Unreadable::Nodes);
    }
    Ok(sections)
}

// Document 01's number for an answer: 0 where the file is readable, and else the number that stands for the refusal.
pub fn number<E: Into<u16>>(reading: Result<Sections, E>) -> u16
    ensures { IsNumberOf E.converts reading result }
{
    match reading {
        Ok(_) => 0,
        Err(unreadable) => unreadable.into(),
    }
}
