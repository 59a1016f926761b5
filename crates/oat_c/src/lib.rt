// The operations for C and Rust, over plain pointers and lengths (`tools/build.sh oat_c`). The two limits are plain numbers: `parts` from 1 to
// 200, `depth` from 1 to 100.
#![tactic(auto)]

ghost use Rattle.std.specs.Prelude.{◌≡◌};
ghost use Rattle.oat.specs.ProgramFile.{limits_of};
ghost use Rattle.program_file.specs.Reading.{reading_of, number_of, Reads};
ghost use Rattle.subtyping.specs.Question.{subtype_of, refusal_number, yes_after, pairs_of, Answers};
ghost use Rattle.typing.specs.Check.{Checked, Demands};
ghost use Rattle.tallies.specs.Tally.{Tallied};
ghost use Rattle.pages.specs.Paging.{Paged};

use program_file::Limits;

// 0 where the file is readable, or the number under which it is refused.
#[unsafe(no_mangle)]
pub extern "C" fn oat_read(file: &[u8], parts: usize, depth: usize) -> u16
    ensures value { result ≡ number_of (reading_of (limits_of parts depth) file.now) }
    ensures reads { Reads (limits_of parts depth) file.now result }
{
    program_file::number(program_file::read(file, Limits { parts, depth }))
}

// 0, with 1 in `yes` where the type a is below the type b and else 0, and in `pairs` how many pairs of types were compared; or the number
// under which the question is refused, `yes` as it was, and 0 in `pairs`.
#[unsafe(no_mangle)]
pub extern "C" fn oat_subtype(
    file: &[u8],
    parts: usize,
    depth: usize,
    a: usize,
    b: usize,
    yes: &mut u8,
    pairs: &mut u16,
) -> u16
    ensures value { result ≡ refusal_number (subtype_of (limits_of parts depth) file.now a b) }
    ensures yes_after { yes.new ≡ yes_after yes.old (subtype_of (limits_of parts depth) file.now a b) }
    ensures pairs_after { pairs.new ≡ pairs_of (subtype_of (limits_of parts depth) file.now a b) }
    ensures answers { Answers (limits_of parts depth) file.now a b result yes.old yes.new pairs.new }
{
    let answer = subtyping::question::subtype(file, Limits { parts, depth }, a, b);
    match answer {
        Ok(found) => {
            *yes = u8::from(found.holds);
            *pairs = found.pairs;
            0
        }
        Err(refusal) => {
            *pairs = 0;
            refusal.number()
        }
    }
}

// Checks a file: 0 where it is accepted, or the number under which it is refused, with the step and the place of the answer, and how many
// pairs of types its subtype questions compared. `rows` and `work` are as `typing::check::check` leaves them.
#[unsafe(no_mangle)]
pub extern "C" fn oat_check(
    file: &[u8],
    parts: usize,
    depth: usize,
    rows: &mut [u16],
    work: &mut [u16],
    step: &mut u16,
    place: &mut u16,
    pairs: &mut u32,
) -> u16
    ensures checked { Checked (limits_of parts depth) file.now rows.old work.old rows.new work.new (record { number = result; step = step.new; place = place.new; pairs = pairs.new }) }
    ensures demands { Demands (limits_of parts depth) file.now rows.old work.old rows.new (record { number = result; step = step.new; place = place.new; pairs = pairs.new }) }
{
    let answer = typing::check::check(file, Limits { parts, depth }, rows, work);
    *step = answer.step;
    *place = answer.place;
    *pairs = answer.pairs;
    answer.number
}

// Checks a file as `oat_check` does and, where it is accepted, writes how many expressions it has of each type to `by_type` and in each declaration
// to `by_declaration`; 19 where either is short, and neither is changed.
#[unsafe(no_mangle)]
pub extern "C" fn oat_tally(
    file: &[u8],
    parts: usize,
    depth: usize,
    rows: &mut [u16],
    work: &mut [u16],
    by_type: &mut [u16],
    by_declaration: &mut [u16],
    step: &mut u16,
    place: &mut u16,
) -> u16
    ensures { Tallied (limits_of parts depth) file.now rows.old work.old by_type.old by_declaration.old rows.new work.new by_type.new by_declaration.new (record { number = result; step = step.new; place = place.new }) }
{
    let tallied = tallies::tally(
        file,
        Limits { parts, depth },
        rows,
        work,
        by_type,
        by_declaration,
    );
    *step = tallied.step;
    *place = tallied.place;
    tallied.number
}

// Checks a file as `oat_check` does and, where it is accepted, writes a line for each row to the front of `page`, and a last line with the number of
// full pages and the rows that are left, with their length in `bytes`; 18 where `page` is short, and it is not changed. `bytes` is 0 where
// nothing is written.
#[unsafe(no_mangle)]
pub extern "C" fn oat_page(
    file: &[u8],
    parts: usize,
    depth: usize,
    rows: &mut [u16],
    work: &mut [u16],
    page: &mut [u8],
    step: &mut u16,
    place: &mut u16,
    bytes: &mut usize,
) -> u16
    ensures { Paged (limits_of parts depth) file.now rows.old work.old page.old rows.new work.new page.new (record { number = result; step = step.new; place = place.new; bytes = bytes.new }) }
{
    let paged = pages::page(file, Limits { parts, depth }, rows, work, page);
    *step = paged.step;
    *place = paged.place;
    *bytes = paged.bytes;
    paged.number
}
