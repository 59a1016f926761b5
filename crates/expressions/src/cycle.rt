// The cycle of expressions: a dispatcher by node kind, one by operator, a function for each rule, and those for a list of
// expressions and for field initializers. The remaining nodes fall. Kinds of nodes and of types are numbers, and `let .. else` hands a
// child's refusal up unchanged: document 01's form.
ghost use Rattle.std.specs.Prelude.{◌≡◌, true, false, ◌+◌, ◌<◌};
ghost use Rattle.oat.specs.Tables.{node_at};
ghost use Rattle.typing_rules.specs.Operators.{is_equality, operand_type, result_type};
ghost use Rattle.answers.specs.Answers.{tables};
ghost use Rattle.answers.specs.Walks.{SameBuffers};
ghost use Rattle.expressions.specs.Contract.{ReadyAt, ToldAt, ReadyListAt, ToldListAt, ReadyInitsAt, ToldInitsAt, ReadyFillingAt, ToldFillingAt};

use answers::answer::{At, Broken, Frame, Judged, Judgement, Walk, row, typed};
use answers::leaves::{
    Expected, Operator, has_default, literal, name, null, operator_of, still_below, still_fits,
    unary_type,
};
use fields::literal::names_fit;
use fields::lookup::field_of;
use file_sections::records::{
    node_children, node_kind, node_t, node_x, type_a, type_b, type_c, type_kind,
};
use subtyping::below::{Compared, below};
use type_index::formed::{is_formed, struct_record};

// The expression at `at`.
#[cycle(expressions)]
pub fn expression(frame: &Frame<'_>, walk: &mut Walk<'_>, at: At) -> Judged
    requires { ReadyAt frame.now walk.old at }
    ensures told { ToldAt frame.now walk.old at walk.new result }
    ensures same_buffers { SameBuffers walk.old walk.new }
{
    let file = &frame.file;
    match node_kind(file.bytes, file.sections, at.node) {
        10 => null(file, walk.rows, at),
        11..=14 => literal(file, walk.rows, at),
        15 => name(file, walk.rows, &walk.bindings, at),
        16 => array_literal(frame, walk, at),
        17 => default_array(frame, walk, at),
        18 => array_with(frame, walk, at),
        19 => index_expression(frame, walk, at),
        20 => length_of(frame, walk, at),
        21 => struct_literal(frame, walk, at),
        23 => field(frame, walk, at),
        24 => call(frame, walk, at),
        25 => unary(frame, walk, at),
        _ => binary(frame, walk, at),
    }
}

// `count` expressions from `at` on, then their subtypes, which break at the parent.
#[cycle(expressions)]
pub fn list(
    frame: &Frame<'_>,
    walk: &mut Walk<'_>,
    at: At,
    count: usize,
    expected: Expected,
    parent: usize,
) -> Judged
    requires { ReadyListAt frame.now walk.old at count expected }
    ensures told { ToldListAt frame.now walk.old at count expected parent walk.new result }
    ensures same_buffers { SameBuffers walk.old walk.new }
{
    let file = &frame.file;
    let mut here = at;
    let mut asked = Compared {
        holds: true,
        pairs: 0,
    };
    for i in 0..count {
        let one = expression(frame, walk, here);
        let Judgement::Typed(t) = one.judgement else {
            return one;
        };
        asked = still_below(file, asked, t, expected, i);
        here = one.at;
    }
    let end = here.counting(asked);
    if !asked.holds {
        return Judged::refused(Broken::NotSubtype, parent, end);
    }
    Judged::goes_on(end)
}

// `count` field initializers from `at` on, of a literal of the record, then their subtypes, which break at the parent.
#[cycle(expressions)]
fn inits(
    frame: &Frame<'_>,
    walk: &mut Walk<'_>,
    at: At,
    count: usize,
    owner: usize,
    parent: usize,
) -> Judged
    requires { ReadyInitsAt frame.now walk.old at count owner }
    ensures told { ToldInitsAt frame.now walk.old at count owner parent walk.new result }
    ensures same_buffers { SameBuffers walk.old walk.new }
{
    let file = &frame.file;
    let mut here = at;
    let mut asked = Compared {
        holds: true,
        pairs: 0,
    };
    for _passed in 0..count {
        let one = expression(
            frame,
            walk,
            At {
                node: here.node + 1,
                ..here
            },
        );
        let Judgement::Typed(t) = one.judgement else {
            return one;
        };
        // 65535 for no binder, as rows are for C.
        row(walk.rows, here.node, t, 65535);
        let named = node_x(file.bytes, file.sections, here.node);
        asked = still_fits(file, asked, t, owner, named);
        here = one.at;
    }
    let end = here.counting(asked);
    if !asked.holds {
        return Judged::refused(Broken::NotSubtype, parent, end);
    }
    Judged::goes_on(end)
}

// Array literal: element type, all elements, all subtypes.
#[cycle(expressions)]
fn array_literal(frame: &Frame<'_>, walk: &mut Walk<'_>, at: At) -> Judged
    requires ready { ReadyAt frame.now walk.old at }
    requires node_value { (node_at (tables frame.now.file) at.node).kind ≡ 16 }
    ensures told { ToldAt frame.now walk.old at walk.new result }
    ensures same_buffers { SameBuffers walk.old walk.new }
{
    let file = &frame.file;
    let t = node_t(file.bytes, file.sections, at.node);
    let element = type_a(file.bytes, file.sections, t);
    if !is_formed(file.index, element) {
        return Judged::refused(Broken::Undeclared, at.node, at);
    }
    let all = list(
        frame,
        walk,
        At {
            node: at.node + 1,
            ..at
        },
        node_children(file.bytes, file.sections, at.node),
        Expected::Each(element),
        at.node,
    );
    let Judgement::GoesOn = all.judgement else {
        return all;
    };
    typed(walk.rows, at.node, t, all.at)
}

// Default array: element type, length, the element's default.
#[cycle(expressions)]
fn default_array(frame: &Frame<'_>, walk: &mut Walk<'_>, at: At) -> Judged
    requires ready { ReadyAt frame.now walk.old at }
    requires node_value { (node_at (tables frame.now.file) at.node).kind ≡ 17 }
    ensures told { ToldAt frame.now walk.old at walk.new result }
    ensures same_buffers { SameBuffers walk.old walk.new }
{
    let file = &frame.file;
    let t = node_t(file.bytes, file.sections, at.node);
    let element = type_a(file.bytes, file.sections, t);
    if !is_formed(file.index, element) {
        return Judged::refused(Broken::Undeclared, at.node, at);
    }
    let one = expression(
        frame,
        walk,
        At {
            node: at.node + 1,
            ..at
        },
    );
    let Judgement::Typed(u) = one.judgement else {
        return one;
    };
    if type_kind(file.bytes, file.sections, u) != 0 {
        return Judged::refused(Broken::WrongSort, at.node, one.at);
    }
    if !has_default(file, element) {
        return Judged::refused(Broken::NoDefault, at.node, one.at);
    }
    typed(walk.rows, at.node, t, one.at)
}

// Array with initializer: element type, length, value.
#[cycle(expressions)]
fn array_with(frame: &Frame<'_>, walk: &mut Walk<'_>, at: At) -> Judged
    requires ready { ReadyAt frame.now walk.old at }
    requires node_value { (node_at (tables frame.now.file) at.node).kind ≡ 18 }
    ensures told { ToldAt frame.now walk.old at walk.new result }
    ensures same_buffers { SameBuffers walk.old walk.new }
{
    let file = &frame.file;
    let t = node_t(file.bytes, file.sections, at.node);
    let element = type_a(file.bytes, file.sections, t);
    if !is_formed(file.index, element) {
        return Judged::refused(Broken::Undeclared, at.node, at);
    }
    let one = expression(
        frame,
        walk,
        At {
            node: at.node + 1,
            ..at
        },
    );
    let Judgement::Typed(u) = one.judgement else {
        return one;
    };
    if type_kind(file.bytes, file.sections, u) != 0 {
        return Judged::refused(Broken::WrongSort, at.node, one.at);
    }
    let two = array_value(frame, walk, at, one.at);
    let Judgement::Typed(_) = two.judgement else {
        return two;
    };
    typed(walk.rows, at.node, t, two.at)
}

// The value at `value` of the array with initializer at `at`, with the index name bound, and its subtype.
#[cycle(expressions)]
fn array_value(frame: &Frame<'_>, walk: &mut Walk<'_>, at: At, value: At) -> Judged
    requires { ReadyFillingAt frame.now walk.old at value }
    ensures told { ToldFillingAt frame.now walk.old at value walk.new result }
    ensures same_buffers { SameBuffers walk.old walk.new }
{
    let file = &frame.file;
    walk.bindings
        .bind(file.bytes, file.sections, at.scope, at.node, 0);
    let one = expression(
        frame,
        walk,
        At {
            scope: at.scope + 1,
            ..value
        },
    );
    let Judgement::Typed(v) = one.judgement else {
        return one;
    };
    walk.bindings
        .leave(file.bytes, file.sections, at.scope + 1, at.scope);
    let element = type_a(
        file.bytes,
        file.sections,
        node_t(file.bytes, file.sections, at.node),
    );
    let asked = below(file.bytes, file.sections, file.index, v, element);
    let end = one.at.counting(asked);
    if !asked.holds {
        return Judged::refused(Broken::NotSubtype, at.node, end);
    }
    Judged {
        judgement: Judgement::Typed(v),
        at: At {
            scope: at.scope,
            ..end
        },
    }
}

// Index: array, its sort, index, its sort.
#[cycle(expressions)]
fn index_expression(frame: &Frame<'_>, walk: &mut Walk<'_>, at: At) -> Judged
    requires ready { ReadyAt frame.now walk.old at }
    requires node_value { (node_at (tables frame.now.file) at.node).kind ≡ 19 }
    ensures told { ToldAt frame.now walk.old at walk.new result }
    ensures same_buffers { SameBuffers walk.old walk.new }
{
    let file = &frame.file;
    let one = expression(
        frame,
        walk,
        At {
            node: at.node + 1,
            ..at
        },
    );
    let Judgement::Typed(t) = one.judgement else {
        return one;
    };
    if type_kind(file.bytes, file.sections, t) != 5 {
        return Judged::refused(Broken::WrongSort, at.node, one.at);
    }
    let two = expression(frame, walk, one.at);
    let Judgement::Typed(u) = two.judgement else {
        return two;
    };
    if type_kind(file.bytes, file.sections, u) != 0 {
        return Judged::refused(Broken::WrongSort, at.node, two.at);
    }
    typed(
        walk.rows,
        at.node,
        type_a(file.bytes, file.sections, t),
        two.at,
    )
}

// Length: array, its sort.
#[cycle(expressions)]
fn length_of(frame: &Frame<'_>, walk: &mut Walk<'_>, at: At) -> Judged
    requires ready { ReadyAt frame.now walk.old at }
    requires node_value { (node_at (tables frame.now.file) at.node).kind ≡ 20 }
    ensures told { ToldAt frame.now walk.old at walk.new result }
    ensures same_buffers { SameBuffers walk.old walk.new }
{
    let file = &frame.file;
    let one = expression(
        frame,
        walk,
        At {
            node: at.node + 1,
            ..at
        },
    );
    let Judgement::Typed(t) = one.judgement else {
        return one;
    };
    if type_kind(file.bytes, file.sections, t) != 5 {
        return Judged::refused(Broken::WrongSort, at.node, one.at);
    }
    typed(walk.rows, at.node, 0, one.at)
}

// Struct literal: declared struct, names, values, subtypes.
#[cycle(expressions)]
fn struct_literal(frame: &Frame<'_>, walk: &mut Walk<'_>, at: At) -> Judged
    requires ready { ReadyAt frame.now walk.old at }
    requires node_value { (node_at (tables frame.now.file) at.node).kind ≡ 21 }
    ensures told { ToldAt frame.now walk.old at walk.new result }
    ensures same_buffers { SameBuffers walk.old walk.new }
{
    let file = &frame.file;
    let t = node_t(file.bytes, file.sections, at.node);
    let owner = struct_record(file.index, t);
    if file.sections.structs <= owner {
        return Judged::refused(Broken::Undeclared, at.node, at);
    }
    if !names_fit(file.bytes, file.sections, at.node, owner) {
        return Judged::refused(Broken::Mismatch, at.node, at);
    }
    let all = inits(
        frame,
        walk,
        At {
            node: at.node + 1,
            ..at
        },
        node_children(file.bytes, file.sections, at.node),
        owner,
        at.node,
    );
    let Judgement::GoesOn = all.judgement else {
        return all;
    };
    typed(walk.rows, at.node, t, all.at)
}

// Field: record, its sort, a field of that name.
#[cycle(expressions)]
fn field(frame: &Frame<'_>, walk: &mut Walk<'_>, at: At) -> Judged
    requires ready { ReadyAt frame.now walk.old at }
    requires node_value { (node_at (tables frame.now.file) at.node).kind ≡ 23 }
    ensures told { ToldAt frame.now walk.old at walk.new result }
    ensures same_buffers { SameBuffers walk.old walk.new }
{
    let file = &frame.file;
    let one = expression(
        frame,
        walk,
        At {
            node: at.node + 1,
            ..at
        },
    );
    let Judgement::Typed(t) = one.judgement else {
        return one;
    };
    if type_kind(file.bytes, file.sections, t) != 4 {
        return Judged::refused(Broken::WrongSort, at.node, one.at);
    }
    let owner = struct_record(file.index, t);
    let wanted = node_x(file.bytes, file.sections, at.node);
    let Some(u) = field_of(file.bytes, file.sections, owner, wanted) else {
        return Judged::refused(Broken::Unknown, at.node, one.at);
    };
    typed(walk.rows, at.node, u, one.at)
}

// Call: callee, sort, void, count, arguments, subtypes.
#[cycle(expressions)]
fn call(frame: &Frame<'_>, walk: &mut Walk<'_>, at: At) -> Judged
    requires ready { ReadyAt frame.now walk.old at }
    requires node_value { (node_at (tables frame.now.file) at.node).kind ≡ 24 }
    ensures told { ToldAt frame.now walk.old at walk.new result }
    ensures same_buffers { SameBuffers walk.old walk.new }
{
    let file = &frame.file;
    let one = expression(
        frame,
        walk,
        At {
            node: at.node + 1,
            ..at
        },
    );
    let Judgement::Typed(f) = one.judgement else {
        return one;
    };
    if type_kind(file.bytes, file.sections, f) != 6 {
        return Judged::refused(Broken::WrongSort, at.node, one.at);
    }
    let result = type_a(file.bytes, file.sections, f);
    if type_kind(file.bytes, file.sections, result) == 3 {
        return Judged::refused(Broken::VoidOrValue, at.node, one.at);
    }
    let count = type_c(file.bytes, file.sections, f);
    if node_children(file.bytes, file.sections, at.node) != 1 + count {
        return Judged::refused(Broken::Mismatch, at.node, one.at);
    }
    let all = list(
        frame,
        walk,
        one.at,
        count,
        Expected::Run(type_b(file.bytes, file.sections, f)),
        at.node,
    );
    let Judgement::GoesOn = all.judgement else {
        return all;
    };
    typed(walk.rows, at.node, result, all.at)
}

// Unary operator: operand, its sort.
#[cycle(expressions)]
fn unary(frame: &Frame<'_>, walk: &mut Walk<'_>, at: At) -> Judged
    requires ready { ReadyAt frame.now walk.old at }
    requires node_value { (node_at (tables frame.now.file) at.node).kind ≡ 25 }
    ensures told { ToldAt frame.now walk.old at walk.new result }
    ensures same_buffers { SameBuffers walk.old walk.new }
{
    let file = &frame.file;
    let one = expression(
        frame,
        walk,
        At {
            node: at.node + 1,
            ..at
        },
    );
    let Judgement::Typed(t) = one.judgement else {
        return one;
    };
    let taken = unary_type(node_x(file.bytes, file.sections, at.node));
    if type_kind(file.bytes, file.sections, t) != taken {
        return Judged::refused(Broken::WrongSort, at.node, one.at);
    }
    typed(walk.rows, at.node, taken, one.at)
}

// Binary operator: one that takes two of one type, or == and !=.
#[cycle(expressions)]
fn binary(frame: &Frame<'_>, walk: &mut Walk<'_>, at: At) -> Judged
    requires ready { ReadyAt frame.now walk.old at }
    requires node_value { (node_at (tables frame.now.file) at.node).kind ≡ 26 }
    ensures told { ToldAt frame.now walk.old at walk.new result }
    ensures same_buffers { SameBuffers walk.old walk.new }
{
    let file = &frame.file;
    match operator_of(node_x(file.bytes, file.sections, at.node)) {
        Operator::Fixed(taken, given) => operator(frame, walk, at, taken, given),
        Operator::Equality => equality(frame, walk, at),
    }
}

// An operator that takes two of one type: left, its sort, right, its sort.
#[cycle(expressions)]
fn operator(frame: &Frame<'_>, walk: &mut Walk<'_>, at: At, taken: usize, given: usize) -> Judged
    requires ready { ReadyAt frame.now walk.old at }
    requires node_value { (node_at (tables frame.now.file) at.node).kind ≡ 26 }
    requires node_value_2 { (is_equality (node_at (tables frame.now.file) at.node).x ≡ false) × (operand_type (node_at (tables frame.now.file) at.node).x ≡ taken) × (result_type (node_at (tables frame.now.file) at.node).x ≡ given) }
    ensures told { ToldAt frame.now walk.old at walk.new result }
    ensures same_buffers { SameBuffers walk.old walk.new }
{
    let file = &frame.file;
    let one = expression(
        frame,
        walk,
        At {
            node: at.node + 1,
            ..at
        },
    );
    let Judgement::Typed(t) = one.judgement else {
        return one;
    };
    if type_kind(file.bytes, file.sections, t) != taken {
        return Judged::refused(Broken::WrongSort, at.node, one.at);
    }
    let two = expression(frame, walk, one.at);
    let Judgement::Typed(u) = two.judgement else {
        return two;
    };
    if type_kind(file.bytes, file.sections, u) != taken {
        return Judged::refused(Broken::WrongSort, at.node, two.at);
    }
    typed(walk.rows, at.node, given, two.at)
}

// == and !=: both operands, then both subtype directions.
#[cycle(expressions)]
fn equality(frame: &Frame<'_>, walk: &mut Walk<'_>, at: At) -> Judged
    requires ready { ReadyAt frame.now walk.old at }
    requires node_value { (node_at (tables frame.now.file) at.node).kind ≡ 26 }
    requires node_value_2 { is_equality (node_at (tables frame.now.file) at.node).x ≡ true }
    ensures told { ToldAt frame.now walk.old at walk.new result }
    ensures same_buffers { SameBuffers walk.old walk.new }
{
    let file = &frame.file;
    let one = expression(
        frame,
        walk,
        At {
            node: at.node + 1,
            ..at
        },
    );
    let Judgement::Typed(t) = one.judgement else {
        return one;
    };
    let two = expression(frame, walk, one.at);
    let Judgement::Typed(u) = two.judgement else {
        return two;
    };
    let there = below(file.bytes, file.sections, file.index, t, u);
    let half = two.at.counting(there);
    if !there.holds {
        return Judged::refused(Broken::NotSubtype, at.node, half);
    }
    let back = below(file.bytes, file.sections, file.index, u, t);
    let end = half.counting(back);
    if !back.holds {
        return Judged::refused(Broken::NotSubtype, at.node, end);
    }
    typed(walk.rows, at.node, 1, end)
}
