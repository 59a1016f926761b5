// A printed page of an accepted file's rows (document 02, (iii)).
#![tactic(auto)]

mod cells;
mod lines;

ghost use Rattle.std.specs.Prelude.{◌≡◌};
ghost use Rattle.file_sections.specs.Layout.{tables_of};
ghost use Rattle.program_file.specs.Reading.{setting_of};
ghost use Rattle.pages.specs.Paging.{answer, Paged};
ghost use Rattle.pages.specs.Writing.{ReadyRows, Writes};

use crate::lines::{last_length, write_last, write_rows};
use file_sections::Sections;
use program_file::{Limits, blank_file, meant};
use typing::check::check_sections;

// The check's number, step and place, and how many bytes the page has; 18 where it has no room, and 0 bytes where there is none. These are the numbers that
// C gets (`oat_page`).
#[derive(Clone, Copy)]
pub struct Answer {
    pub number: u16,
    pub step: u16,
    pub place: u16,
    pub bytes: usize,
}

// An answer.
fn told(number: u16, step: u16, place: u16, bytes: usize) -> Answer
    ensures { result ≡ answer number step place bytes }
{
    Answer {
        number,
        step,
        place,
        bytes,
    }
}

// Writes the page of an accepted file, and answers how many bytes it has; none where it has no room, and nothing is changed.
fn write_page(file: &[u8], sections: Sections, rows: &[u16], out: &mut [u8]) -> Option<usize>
    requires { ReadyRows file.now sections rows.now }
    ensures { Writes (tables_of file.now sections) rows.now out.old result out.new }
{
    let pages = (sections.nodes / 50) as u16;
    let left = (sections.nodes % 50) as u16;
    let last = 20 * sections.nodes;
    let bytes = last + last_length(pages, left);
    if out.len() < bytes {
        return None;
    }
    write_rows(file, sections, rows, &mut *out);
    write_last(out, last, pages, left);
    Some(bytes)
}

// Checks a file and, where it is accepted, writes a line for each row and a last line with the number of full pages and the rows that are left.
pub fn page(
    file: &[u8],
    limits: Limits,
    rows: &mut [u16],
    work: &mut [u16],
    out: &mut [u8],
) -> Answer
    ensures { Paged (setting_of limits) file.now rows.old work.old out.old rows.new work.new out.new result }
{
    let read = program_file::read(file, limits);
    let Ok(sections) = read else {
        return told(program_file::number(read), 0, 0, 0);
    };
    let checked = check_sections(file, sections, &mut *rows, work);
    if checked.number != 0 {
        return told(checked.number, checked.step, checked.place, 0);
    }
    let blank = blank_file();
    let Some(bytes) = write_page(meant(file, &blank), sections, &*rows, out) else {
        return told(18, 0, 0, 0);
    };
    told(checked.number, checked.step, checked.place, bytes)
}
