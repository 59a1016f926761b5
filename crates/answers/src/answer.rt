// What judging a part of a program comes to, and rows.
ghost use Rattle.std.specs.Prelude.{◌≡◌, ◌+◌, ◌*◌, ◌≤◌, ◌<◌, length};
ghost use Rattle.answers.specs.Answers.{broken_number, with_row, with_pairs, Refuses};

use crate::file::IndexedFile;
use bindings::Bindings;
use subtyping::below::Compared;

// The premise that is broken: why a file that can be read is refused.
#[derive(Clone, Copy, PartialEq, Eq)]
pub enum Broken {
    BoundTwice = 7,
    Unknown = 8,
    Undeclared = 9,
    WrongSort = 10,
    NotSubtype = 11,
    Mismatch = 12,
    VoidOrValue = 13,
    WrongMark = 14,
    FunctionAssigned = 15,
    NoDefault = 16,
}

impl Broken {
    // The number that the documents give it.
    pub fn number(self) -> u16
        ensures { result ≡ broken_number self }
    {
        self as u16
    }
}

// A type, a mark (goes on, returns), or the number and the place of a refusal. A list of expressions goes on.
// A refusal is a case of it, and no Err: document 01's form.
#[derive(Clone, Copy)]
pub enum Judgement {
    Typed(usize),
    GoesOn,
    Returns,
    Refused(usize, usize),
}

// What is fixed within a declaration: the file, the height at which its locals begin, and the type that it returns.
#[derive(Clone, Copy)]
pub struct Frame<'a> {
    pub file: IndexedFile<'a>,
    pub base: usize,
    pub result: usize,
}

// What the walk writes: the rows, and the names that are bound.
#[derive(Drop)]
pub struct Walk<'a> {
    pub rows: &'a mut [u16],
    pub bindings: Bindings<'a>,
}

// Where the walk stands: a node, the height of the scope, and how many pairs of types were compared so far.
#[derive(Clone, Copy)]
pub struct At {
    pub node: usize,
    pub scope: usize,
    pub pairs: usize,
}

impl At {
    // The same place, with the pairs of a comparison.
    pub fn counting(self, compared: Compared) -> At
        requires { (self.pairs ≤ 4294967295) × (compared.pairs ≤ 4294967295) }
        ensures { result ≡ with_pairs self compared }
    {
        At {
            pairs: self.pairs + compared.pairs,
            ..self
        }
    }
}

// A judgement, and where the walk stands after the part.
#[derive(Clone, Copy)]
pub struct Judged {
    pub judgement: Judgement,
    pub at: At,
}

impl Judged {
    // A refusal for the premise that is broken.
    pub fn refused(broken: Broken, place: usize, found: At) -> Judged
        ensures { Refuses result (broken_number broken) place found.pairs × (result.at ≡ found) }
    {
        refused(usize::from(broken.number()), place, found)
    }

    // A list of expressions, or a part that adds no mark: the walk goes on.
    pub fn goes_on(at: At) -> Judged
        ensures { result ≡ record { judgement = Judgement.GoesOn; at = at } }
    {
        Judged {
            judgement: Judgement::GoesOn,
            at,
        }
    }
}

// A refusal, found where the walk stands.
pub fn refused(number: usize, place: usize, found: At) -> Judged
    ensures { Refuses result number place found.pairs × (result.at ≡ found) }
{
    Judged {
        judgement: Judgement::Refused(number, place),
        at: found,
    }
}

// Writes the row of a node.
pub fn row(rows: &mut [u16], node: usize, res: usize, binder: usize)
    requires { (node * 2 + 1 < length rows.old) × (node < 65536) × (res < 65536) × (binder < 65536) }
    ensures { rows.new ≡ with_row rows.old node res binder }
{
    rows[node * 2] = res as u16;
    rows[node * 2 + 1] = binder as u16;
}

// An expression of the type t that is no name: its row and its answer. 65535 is a row's word for no binder: the C interface.
pub fn typed(rows: &mut [u16], node: usize, t: usize, after: At) -> Judged
    requires { (node * 2 + 1 < length rows.old) × (node < 65536) × (t < 65536) }
    ensures value { result ≡ record { judgement = Judgement.Typed t; at = after } }
    ensures rows_after { rows.new ≡ with_row rows.old node t 65535 }
{
    row(rows, node, t, 65535);
    Judged {
        judgement: Judgement::Typed(t),
        at: after,
    }
}
