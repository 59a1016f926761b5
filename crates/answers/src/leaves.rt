// Expressions without children, and tests on types.
ghost use Rattle.std.specs.Prelude.{◌≡◌, false, ◌+◌, ◌*◌, ◌≤◌, ◌<◌, length};
ghost use Rattle.oat.specs.Tables.{node_at};
ghost use Rattle.oat.specs.Types.{struct_of};
ghost use Rattle.typing_rules.specs.Operators.{unary_type};
ghost use Rattle.typing_rules.specs.Rules.{member};
ghost use Rattle.typing_rules.specs.Judge.{has_default, asked, member_asked};
ghost use Rattle.type_index.specs.Index.{Entered};
ghost use Rattle.bindings.specs.Bindings.{Some as Holding};
ghost use Rattle.answers.specs.Answers.{tables, structs_alone, with_row, LeafAnswer, AndAsked, operator_of, literal_kind, Expecting, expected_at, NullAnswer, NameAnswer};

use crate::answer::{At, Broken, Judged, Judgement, row, typed};
use crate::file::IndexedFile;
use bindings::{Bindings, binder_at, find, type_at};
use fields::lookup::field_of;
use file_sections::records::{list_entry, node_kind, node_t, node_x, type_kind};
use subtyping::below::{Compared, below};
use type_index::formed::is_formed;

// What a binary operator asks of its operands: both are of one type, and the type that it gives; or each is below the other.
#[derive(Clone, Copy)]
pub enum Operator {
    Fixed(usize, usize),
    Equality,
}

// What the types of a list of expressions are to be below: each the same type, or the run of the type list from an entry on.
#[derive(Clone, Copy)]
pub enum Expected {
    Each(usize),
    Run(usize),
}

// The type that the expression i of a list is to be below.
fn expected_at(file: &IndexedFile<'_>, expected: Expected, i: usize) -> usize
    requires { Expecting (tables file.now) file.now.sections expected (i + 1) }
    ensures { (result ≡ expected_at (tables file.now) expected i) × (result < 65536) }
{
    match expected {
        Expected::Each(t) => t,
        Expected::Run(first) => list_entry(file.bytes, file.sections, first + i),
    }
}

// Those before are below what is expected, and so is the type t of the expression i.
pub fn still_below(
    file: &IndexedFile<'_>,
    before: Compared,
    t: usize,
    expected: Expected,
    i: usize,
) -> Compared
    requires type_there { (t < file.now.sections.types) × Expecting (tables file.now) file.now.sections expected (i + 1) }
    requires pairs_bound { before.pairs ≤ 4294967295 }
    ensures { AndAsked before (asked (tables file.now) (structs_alone (tables file.now)) t (expected_at (tables file.now) expected i)) result }
{
    if !before.holds {
        return before;
    }
    let u = expected_at(file, expected, i);
    below(file.bytes, file.sections, file.index, t, u).after(before.pairs)
}

// Those before are below their fields' types, and so is the type t of the value of the field `name` of the struct record `owner`.
pub fn still_fits(
    file: &IndexedFile<'_>,
    before: Compared,
    t: usize,
    owner: usize,
    name: usize,
) -> Compared
    requires type_there { (t < file.now.sections.types) × (owner < file.now.sections.structs) }
    requires pairs_bound { before.pairs ≤ 4294967295 }
    ensures { AndAsked before (member_asked (tables file.now) (structs_alone (tables file.now)) t (member name (struct_of (tables file.now) owner).fields)) result }
{
    if !before.holds {
        return before;
    }
    let Some(u) = field_of(file.bytes, file.sections, owner, name) else {
        return Compared {
            holds: false,
            ..before
        };
    };
    below(file.bytes, file.sections, file.index, t, u).after(before.pairs)
}

// An element with a default: int, bool or nullable.
pub fn has_default(file: &IndexedFile<'_>, t: usize) -> bool
    requires { t < file.now.sections.types }
    ensures { result ≡ has_default (tables file.now) t }
{
    matches!(type_kind(file.bytes, file.sections, t), 0..=1 | 7)
}

// What a unary operator takes and gives: 0 - and 2 ~ ints, 1 ! bools.
pub fn unary_type(operator: usize) -> usize
    ensures { result ≡ unary_type operator }
{
    usize::from(operator == 1)
}

// What a binary operator takes and gives: 0 to 5, 14 and 15 ints to int, 6 to 9 ints to bool, 12 and 13 bools to bool; 10 and 11 need both
// subtype directions. There are no others; an arm of their own would be a further test for every operator. Operators are numbers:
// document 01's form.
#[tactic(auto, unfolding(crate::specs::Answers::operator_of))]
pub fn operator_of(operator: usize) -> Operator
    ensures { result ≡ operator_of operator }
{
    match operator {
        6..=9 => Operator::Fixed(0, 1),
        10..=11 => Operator::Equality,
        12..=13 => Operator::Fixed(1, 1),
        0..=5 | 14..=15 | _ => Operator::Fixed(0, 0),
    }
}

// The expression `null` at `at`.
pub fn null(file: &IndexedFile<'_>, rows: &mut [u16], at: At) -> Judged
    requires { (at.node < file.now.sections.nodes) × Entered file.now.index.now (node_at (tables file.now) at.node).t × (file.now.sections.nodes * 2 ≤ length rows.old) }
    ensures { NullAnswer file.now.index.now rows.old (node_at (tables file.now) at.node).t at.node at.scope at.pairs rows.new result }
{
    let t = node_t(file.bytes, file.sections, at.node);
    if !is_formed(file.index, t) {
        return Judged::refused(Broken::Undeclared, at.node, at);
    }
    let after = At {
        node: at.node + 1,
        ..at
    };
    typed(rows, at.node, t, after)
}

// The type of a literal of this kind: 11 and 12 the Booleans, 13 an integer, 14 a string. Node kinds are numbers: document 01's form.
fn literal_type(kind: usize) -> usize
    ensures { (result ≡ literal_kind kind) × (result < 3) }
{
    match kind {
        11..=12 => 1,
        13 => 0,
        _ => 2,
    }
}

// The literal at `at`.
pub fn literal(file: &IndexedFile<'_>, rows: &mut [u16], at: At) -> Judged
    requires { (at.node < file.now.sections.nodes) × (file.now.sections.nodes * 2 ≤ length rows.old) }
    ensures leaf_answer { LeafAnswer (literal_kind (node_at (tables file.now) at.node).kind) at.node at.scope at.pairs result }
    ensures rows_after { rows.new ≡ with_row rows.old at.node (literal_kind (node_at (tables file.now) at.node).kind) 65535 }
{
    let t = literal_type(node_kind(file.bytes, file.sections, at.node));
    let after = At {
        node: at.node + 1,
        ..at
    };
    typed(rows, at.node, t, after)
}

// The name at `at`.
pub fn name(file: &IndexedFile<'_>, rows: &mut [u16], bindings: &Bindings<'_>, at: At) -> Judged
    requires { Holding file.now.bytes.now file.now.sections bindings.now.work.now bindings.now.chains × (at.node < file.now.sections.nodes) × (file.now.sections.nodes * 2 ≤ length rows.old) }
    ensures { NameAnswer file.now.bytes.now file.now.sections rows.old bindings.now.work.now bindings.now.chains at.node at.scope at.pairs rows.new result }
{
    let x = node_x(file.bytes, file.sections, at.node);
    let Some(position) = find(
        file.bytes,
        file.sections,
        bindings.work,
        &bindings.chains,
        x,
    ) else {
        return Judged::refused(Broken::Unknown, at.node, at);
    };
    let t = type_at(file.bytes, file.sections, bindings.work, position);
    let binder = binder_at(file.bytes, file.sections, bindings.work, position);
    row(rows, at.node, t, binder);
    Judged {
        judgement: Judgement::Typed(t),
        at: At {
            node: at.node + 1,
            ..at
        },
    }
}
