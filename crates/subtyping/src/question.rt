// The subtype question on a file: refused under 25, 1 to 5 or 17, or yes or no, with the count of the pairs of types compared.
ghost use Rattle.std.specs.Prelude.{◌≡◌, ℕ, ◌<◌};
ghost use Rattle.file_sections.specs.Layout.{tables_of, GoodTables};
ghost use Rattle.program_file.specs.Reading.{setting_of};
ghost use Rattle.subtyping.specs.Numbered.{below_at, pairs_at};
ghost use Rattle.subtyping.specs.declared.question.Refusal.{Refusal};
ghost use Rattle.subtyping.specs.Question.{number_of_refusal, subtype_of, refusal_number, yes_after, pairs_of, Answers};

use crate::below::below;
use file_sections::{Sections, Unreadable};
use program_file::{Limits, blank_file, meant};
use type_index::index::index_types;

// Yes or no, and how many pairs of types were compared. A struct and no Option, since the pairs count either way.
#[derive(Clone, Copy, PartialEq, Eq)]
pub struct Answer {
    pub holds: bool,
    pub pairs: u16,
}

// Why the question has no answer: the file cannot be read, or it lacks one of the types (17).
#[derive(Clone, Copy, PartialEq, Eq)]
pub enum Refusal {
    Unreadable(Unreadable),
    NoType,
}

impl From<Unreadable> for Refusal {
    ghost from_gives = { λ error refusal. refusal ≡ Refusal.Unreadable error };

    fn from(error: Unreadable) -> Refusal {
        Refusal::Unreadable(error)
    }
}

impl Refusal {
    // The number that the documents give it.
    pub fn number(self) -> u16
        ensures { result ≡ number_of_refusal self }
    {
        match self {
            Refusal::Unreadable(unreadable) => unreadable.number(),
            Refusal::NoType => 17,
        }
    }
}

// The question on a file that was read and has both types.
fn ask(file: &[u8], sections: Sections, a: usize, b: usize) -> Answer
    requires { GoodTables file.now sections × (a < sections.types) × (b < sections.types) }
    ensures { result ≡ record { holds = below_at (tables_of file.now sections) a b; pairs = pairs_at (tables_of file.now sections) a b } }
{
    let mut index = [0u16; 2624];
    index_types(file, sections, &mut index);
    let compared = below(file, sections, &index, a, b);
    Answer {
        holds: compared.holds,
        pairs: compared.pairs as u16,
    }
}

// Is the type a below the type b? Whatever value a caller holds before, the answer's number, `yes_after` and its count give what `Answers`
// says.
pub fn subtype(file: &[u8], limits: Limits, a: usize, b: usize) -> Result<Answer, Refusal>
    ensures value { result ≡ subtype_of (setting_of limits) file.now a b }
    ensures by_index { (old : ℕ) → Answers (setting_of limits) file.now a b (refusal_number result) old (yes_after old result) (pairs_of result) }
{
    let sections = program_file::read(file, limits)?;
    if sections.types <= a || sections.types <= b {
        return Err(Refusal::NoType);
    }
    let blank = blank_file();
    Ok(ask(meant(file, &blank), sections, a, b))
}
