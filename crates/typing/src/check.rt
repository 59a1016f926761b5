// The check of a program file (document 01, 'Rows and answers').
ghost use Rattle.std.specs.Prelude.{◌≡◌, ◌*◌, ◌≤◌, ◌<◌, length};
ghost use Rattle.answers.specs.Walks.{SameBuffers};
ghost use Rattle.program_file.specs.Reading.{setting_of};
ghost use Rattle.typing.specs.Runs.{ReadyRunAt, ToldFirstAt, ToldRunAt};
ghost use Rattle.typing.specs.Check.{Checked, Demands, WasRead, ToldSections, answer_of, rows_after, Small, ReadyCheck, ToldCheck};
ghost use Rattle.bindings.specs.Buffers.{SameWork};

use crate::groups::{bodies, built_ins, globals, headings, struct_fields, struct_names};
use answers::answer::Walk;
use answers::file::IndexedFile;
use bindings::Bindings;
use file_sections::Sections;
use program_file::{Limits, blank_file, meant};
use steps::context::{Context, Refusal};
use type_index::index::index_types;

// 0 and how many steps there are; or the number, the step and the place of a refusal. Either way, how many pairs of types were compared.
// C gets these four numbers, so they stay numbers here.
#[derive(Clone, Copy, PartialEq, Eq)]
pub struct Answer {
    pub number: u16,
    pub step: u16,
    pub place: u16,
    pub pairs: u32,
}

impl Answer {
    // Without step, place and pairs.
    fn bare(number: u16) -> Answer
        ensures { result ≡ record { number = number; step = 0; place = 0; pairs = 0 } }
    {
        Answer {
            number,
            step: 0,
            place: 0,
            pairs: 0,
        }
    }

    // To an accepted file, in the context after its last step.
    fn accepted(last: Context) -> Answer
        requires { (last.steps < 65535) × (last.pairs ≤ 4294967295) }
        ensures { result ≡ record { number = 0; step = last.steps; place = 0; pairs = last.pairs } }
    {
        Answer {
            number: 0,
            step: last.steps as u16,
            place: 0,
            pairs: last.pairs as u32,
        }
    }

    // To a refused one.
    fn refused(refusal: Refusal) -> Answer
        requires { (refusal.number ≤ 16) × (refusal.step < 65535) × (refusal.place < 65535) × (refusal.pairs ≤ 4294967295) }
        ensures { result ≡ record { number = refusal.number; step = refusal.step; place = refusal.place; pairs = refusal.pairs } }
    {
        Answer {
            number: refusal.number as u16,
            step: refusal.step as u16,
            place: refusal.place as u16,
            pairs: refusal.pairs as u32,
        }
    }
}

// The answer after the last step; a refusal fills the rows.
fn finish(stepped: Result<Context, Refusal>, rows: &mut [u16]) -> Answer
    requires { Small stepped }
    ensures value { result ≡ answer_of stepped }
    ensures rows_after { rows.new ≡ rows_after stepped rows.old }
{
    match stepped {
        Ok(last) => Answer::accepted(last),
        Err(refusal) => {
            rows.fill(65535);
            Answer::refused(refusal)
        }
    }
}

// Struct names, built-ins and function headings.
fn run_first(file: &IndexedFile<'_>, bindings: &mut Bindings<'_>) -> Result<Context, Refusal>
    requires { ReadyRunAt file.now bindings.old }
    ensures told { ToldFirstAt file.now bindings.old bindings.new result }
    ensures same_work { SameWork bindings.old bindings.new }
{
    let structs = struct_names(file)?;
    let built = built_ins(structs, file, bindings)?;
    headings(built, file, bindings)
}

// All steps.
fn run(file: &IndexedFile<'_>, walk: &mut Walk<'_>) -> Result<Context, Refusal>
    requires { ReadyRunAt file.now walk.old.bindings × (file.now.sections.nodes * 2 ≤ length walk.old.rows.now) }
    ensures told { ToldRunAt file.now walk.old walk.new result }
    ensures same_buffers { SameBuffers walk.old walk.new }
{
    let first = run_first(file, &mut walk.bindings)?;
    let second = globals(first, file, walk)?;
    let third = struct_fields(second, file)?;
    bodies(third, file, walk)
}

// The check of a readable file, where rows and work have two numbers for each node.
fn check_read<'a>(
    file: &[u8],
    sections: Sections,
    rows: &'a mut [u16],
    work: &'a mut [u16],
) -> Answer
    requires { ReadyCheck file.now sections rows.old work.old }
    ensures { ToldCheck file.now sections rows.new work.new result }
{
    let mut index = [0u16; 2624];
    index_types(file, sections, &mut index);
    let indexed = IndexedFile {
        bytes: file,
        sections,
        index: &index,
    };
    let bindings = Bindings {
        work,
        chains: [0; 4736],
    };
    let mut walk = Walk { rows, bindings };
    let stepped = run(&indexed, &mut walk);
    let Walk { rows, .. } = walk;
    finish(stepped, rows)
}

// The check of a file that was read: tests the buffers, and answers; `rows` gets two numbers for each node, and `work` lends as many.
pub fn check_sections(file: &[u8], sections: Sections, rows: &mut [u16], work: &mut [u16]) -> Answer
    requires { WasRead file.now sections }
    ensures { ToldSections file.now sections rows.old work.old rows.new work.new result }
{
    let needed = sections.nodes * 2;
    if rows.len() < needed {
        return Answer::bare(6);
    }
    if work.len() < needed {
        return Answer::bare(6);
    }
    let blank = blank_file();
    check_read(
        meant(file, &blank),
        sections,
        &mut rows[..needed],
        &mut work[..needed],
    )
}

// Checks a program file: tests the limits, reads it, tests the buffers, and answers; `rows` gets two numbers for each node, and `work` lends as
// many.
pub fn check(file: &[u8], limits: Limits, rows: &mut [u16], work: &mut [u16]) -> Answer
    ensures checked { Checked (setting_of limits) file.now rows.old work.old rows.new work.new result }
    ensures demands { Demands (setting_of limits) file.now rows.old work.old rows.new result }
{
    match program_file::read(file, limits) {
        Ok(sections) => check_sections(file, sections, rows, work),
        Err(unreadable) => Answer::bare(unreadable.number()),
    }
}
