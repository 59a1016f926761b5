// The six sections of a program file (document 01, 'The program file'): numbers, where the sections stand (refused under
// 1 and 2), readers of single records, the category of a node, and where a tree of nodes ends.
#![tactic(auto)]

ghost use Rattle.std.specs.Prelude.{◌≡◌};
ghost use Rattle.file_sections.specs.Unreadable.{unreadable_number};

pub mod categories;
pub mod layout;
pub mod numbers;
pub mod records;
pub mod trees;

// The count of each section, and the number at which its first record begins; types begin at number 1.
#[derive(Clone, Copy)]
pub struct Sections {
    pub types: usize,
    pub list: usize,
    pub list_at: usize,
    pub fields: usize,
    pub fields_at: usize,
    pub structs: usize,
    pub structs_at: usize,
    pub built_ins: usize,
    pub built_ins_at: usize,
    pub nodes: usize,
    pub nodes_at: usize,
}

// Why bytes cannot be read: a section is missing, cut or followed by bytes (1), a count is too large (2), a rule on types is
// broken (3), one on fields, structs and built-ins (4), one on nodes (5), or a limit is out of its range (25).
#[derive(Clone, Copy, PartialEq, Eq)]
pub enum Unreadable {
    Length,
    Count,
    Types,
    Tables,
    Nodes,
    Limits,
}

impl Unreadable {
    // The number that the documents give it.
    pub fn number(self) -> u16
        ensures { result ≡ unreadable_number self }
    {
        match self {
            Unreadable::Length => 1,
            Unreadable::Count => 2,
            Unreadable::Types => 3,
            Unreadable::Tables => 4,
            Unreadable::Nodes => 5,
            Unreadable::Limits => 25,
        }
    }
}

// The number that the documents give it, where a number is asked for.
impl From<Unreadable> for u16 {
    ghost from_gives = { λ unreadable number. number ≡ unreadable_number unreadable };

    fn from(unreadable: Unreadable) -> u16 {
        unreadable.number()
    }
}
