// Return marks: numbers, as they stand in the rows (document 01's form).
ghost use Rattle.std.specs.Prelude.{◌≡◌, ◌+◌, ◌*◌, ◌≤◌, ◌<◌, length};
ghost use Rattle.file_sections.specs.Layout.{Has};
ghost use Rattle.answers.specs.Answers.{with_row};
ghost use Rattle.simple_statements.specs.Contract.{mark_of, marked, MarksWhile};

use answers::answer::{At, Judged, Judgement, row};
use file_sections::Sections;
use file_sections::records::node_kind;

// 1 where it returns, else 0.
pub fn mark_of(judgement: Judgement) -> usize
    ensures { (result ≡ mark_of judgement) × (result ≤ 1) }
{
    usize::from(matches!(judgement, Judgement::Returns))
}

// The mark of a while whose condition stands at `test`: 1 where it is the last of its block and its condition is the node `true`.
pub fn while_mark(file: &[u8], sections: Sections, test: usize, last: bool) -> usize
    requires { Has file.now sections test sections.nodes }
    ensures { MarksWhile file.now sections test last result × (result ≤ 1) }
{
    usize::from(last && node_kind(file, sections, test) == 11)
}

// The judgement of a mark.
fn judgement_of(mark: usize) -> Judgement
    ensures { result ≡ marked mark }
{
    if mark == 1 {
        return Judgement::Returns;
    }
    Judgement::GoesOn
}

// The answer with a mark.
pub fn with_mark(mark: usize, at: At) -> Judged
    ensures { result ≡ record { judgement = marked mark; at = at } }
{
    Judged {
        judgement: judgement_of(mark),
        at,
    }
}

// A statement or block with the mark: its row and its answer.
pub fn ends(rows: &mut [u16], node: usize, mark: usize, after: At) -> Judged
    requires { (node * 2 + 1 < length rows.old) × (node < 65536) × (mark ≤ 1) }
    ensures value { result ≡ record { judgement = marked mark; at = after } }
    ensures rows_after { rows.new ≡ with_row rows.old node mark 65535 }
{
    // 65535 for no binder, as rows are for C.
    row(rows, node, mark, 65535);
    with_mark(mark, after)
}
