// Statements without statements in them, and a for's vars and condition. Kinds of nodes and of types are numbers, and `let .. else`
// hands a child's refusal up unchanged: document 01's form.
ghost use Rattle.std.specs.Prelude.{◌≡◌, ◌<◌};
ghost use Rattle.oat.specs.Tables.{node_at};
ghost use Rattle.bindings.specs.Bindings.{SomeFrom};
ghost use Rattle.answers.specs.Answers.{tables};
ghost use Rattle.answers.specs.Walks.{SameBuffers};
ghost use Rattle.simple_statements.specs.Contract.{ReadyStmtAt, ToldVarAt, ToldAnywhereAt, ToldAnyAt, ReadyVarsAt, ToldVarsAt, ReadyConditionAt, ToldConditionAt, Assigns};

use crate::marks::ends;
use answers::answer::{At, Broken, Frame, Judged, Judgement, Walk};
use answers::file::IndexedFile;
use answers::leaves::Expected;
use bindings::{Bindings, is_assignable};
use expressions::cycle::{expression, list};
use file_sections::records::{node_children, node_kind, node_x, type_a, type_b, type_c, type_kind};
use subtyping::below::below;

// The left side at `node` is not the name of a function or of a built-in, or a local hides it.
fn assigns(file: &IndexedFile<'_>, bindings: &Bindings<'_>, base: usize, node: usize) -> bool
    requires { SomeFrom file.now.bytes.now file.now.sections bindings.now.work.now bindings.now.chains base × (node < file.now.sections.nodes) }
    ensures { Assigns file.now.bytes.now file.now.sections bindings.now.work.now bindings.now.chains base node result }
{
    if node_kind(file.bytes, file.sections, node) != 15 {
        return true;
    }
    let name = node_x(file.bytes, file.sections, node);
    is_assignable(
        file.bytes,
        file.sections,
        bindings.work,
        &bindings.chains,
        base,
        name,
    )
}

// Assignment: not to a function, left, right, subtype.
pub fn assignment(frame: &Frame<'_>, walk: &mut Walk<'_>, at: At) -> Judged
    requires ready_stmt { ReadyStmtAt frame.now walk.old at }
    requires node_value { (node_at (tables frame.now.file) at.node).kind ≡ 30 }
    ensures told { ToldAnyAt frame.now walk.old at walk.new result }
    ensures same_buffers { SameBuffers walk.old walk.new }
{
    let file = &frame.file;
    if !assigns(file, &walk.bindings, frame.base, at.node + 1) {
        return Judged::refused(Broken::FunctionAssigned, at.node, at);
    }
    let left = At {
        node: at.node + 1,
        ..at
    };
    let one = expression(frame, walk, left);
    let Judgement::Typed(t) = one.judgement else {
        return one;
    };
    let right = At {
        scope: at.scope,
        ..one.at
    };
    let two = expression(frame, walk, right);
    let Judgement::Typed(u) = two.judgement else {
        return two;
    };
    let asked = below(file.bytes, file.sections, file.index, u, t);
    let end = two.at.counting(asked);
    if !asked.holds {
        return Judged::refused(Broken::NotSubtype, at.node, end);
    }
    let after = At {
        scope: at.scope,
        ..end
    };
    ends(walk.rows, at.node, 0, after)
}

// Var: value, fresh name. The bindings of its block stand from the position `start` on.
pub fn variable(frame: &Frame<'_>, walk: &mut Walk<'_>, at: At, start: usize) -> Judged
    requires ready_stmt { ReadyStmtAt frame.now walk.old at }
    requires node_value { (node_at (tables frame.now.file) at.node).kind ≡ 31 }
    ensures told { ToldVarAt frame.now walk.old start at walk.new result }
    ensures same_buffers { SameBuffers walk.old walk.new }
{
    let file = &frame.file;
    let value = At {
        node: at.node + 1,
        ..at
    };
    let one = expression(frame, walk, value);
    let Judgement::Typed(t) = one.judgement else {
        return one;
    };
    let name = node_x(file.bytes, file.sections, at.node);
    let bindings = &mut walk.bindings;
    if !bindings.is_fresh(file.bytes, file.sections, start, name) {
        return Judged::refused(Broken::BoundTwice, at.node, one.at);
    }
    bindings.bind(file.bytes, file.sections, at.scope, at.node, t);
    let after = At {
        scope: at.scope + 1,
        ..one.at
    };
    ends(walk.rows, at.node, 0, after)
}

// `count` vars of a for, from `node` on, in the block whose bindings stand from the position `start` on.
pub fn variables(
    frame: &Frame<'_>,
    walk: &mut Walk<'_>,
    at: At,
    count: usize,
    start: usize,
) -> Judged
    requires { ReadyVarsAt frame.now walk.old start at count }
    ensures told { ToldVarsAt frame.now walk.old start at count walk.new result }
    ensures same_buffers { SameBuffers walk.old walk.new }
{
    let mut here = at;
    for _passed in 0..count {
        let one = variable(frame, walk, here, start);
        let Judgement::GoesOn = one.judgement else {
            return one;
        };
        here = one.at;
    }
    Judged::goes_on(here)
}

// The condition at `node` of the for at `parent`, or 40.
pub fn condition(frame: &Frame<'_>, walk: &mut Walk<'_>, at: At, parent: usize) -> Judged
    requires { ReadyConditionAt frame.now walk.old at }
    ensures told { ToldConditionAt frame.now walk.old at parent walk.new result }
    ensures same_buffers { SameBuffers walk.old walk.new }
{
    let file = &frame.file;
    if node_kind(file.bytes, file.sections, at.node) == 40 {
        let after = At {
            node: at.node + 1,
            ..at
        };
        return ends(walk.rows, at.node, 0, after);
    }
    let one = expression(frame, walk, at);
    let Judgement::Typed(t) = one.judgement else {
        return one;
    };
    if type_kind(file.bytes, file.sections, t) != 1 {
        return Judged::refused(Broken::WrongSort, parent, one.at);
    }
    Judged::goes_on(one.at)
}

// Return with value: not void, value, subtype.
pub fn return_value(frame: &Frame<'_>, walk: &mut Walk<'_>, at: At) -> Judged
    requires ready_stmt { ReadyStmtAt frame.now walk.old at × (frame.now.result < frame.now.file.sections.types) }
    requires node_value { (node_at (tables frame.now.file) at.node).kind ≡ 32 }
    ensures told { ToldAnywhereAt frame.now walk.old at walk.new result }
    ensures same_buffers { SameBuffers walk.old walk.new }
{
    let file = &frame.file;
    if type_kind(file.bytes, file.sections, frame.result) == 3 {
        return Judged::refused(Broken::VoidOrValue, at.node, at);
    }
    let value = At {
        node: at.node + 1,
        ..at
    };
    let one = expression(frame, walk, value);
    let Judgement::Typed(t) = one.judgement else {
        return one;
    };
    let asked = below(file.bytes, file.sections, file.index, t, frame.result);
    let end = one.at.counting(asked);
    if !asked.holds {
        return Judged::refused(Broken::NotSubtype, at.node, end);
    }
    let after = At {
        scope: at.scope,
        ..end
    };
    ends(walk.rows, at.node, 1, after)
}

// Return: void.
pub fn return_void(frame: &Frame<'_>, walk: &mut Walk<'_>, at: At) -> Judged
    requires ready_stmt { ReadyStmtAt frame.now walk.old at × (frame.now.result < frame.now.file.sections.types) }
    requires node_value { (node_at (tables frame.now.file) at.node).kind ≡ 33 }
    ensures told { ToldAnywhereAt frame.now walk.old at walk.new result }
    ensures same_buffers { SameBuffers walk.old walk.new }
{
    let file = &frame.file;
    if type_kind(file.bytes, file.sections, frame.result) != 3 {
        return Judged::refused(Broken::VoidOrValue, at.node, at);
    }
    let after = At {
        node: at.node + 1,
        ..at
    };
    ends(walk.rows, at.node, 1, after)
}

// Call statement: callee, sort, void, count, arguments, subtypes.
pub fn call_statement(frame: &Frame<'_>, walk: &mut Walk<'_>, at: At) -> Judged
    requires ready_stmt { ReadyStmtAt frame.now walk.old at }
    requires node_value { (node_at (tables frame.now.file) at.node).kind ≡ 34 }
    ensures told { ToldAnyAt frame.now walk.old at walk.new result }
    ensures same_buffers { SameBuffers walk.old walk.new }
{
    let file = &frame.file;
    let callee = At {
        node: at.node + 1,
        ..at
    };
    let one = expression(frame, walk, callee);
    let Judgement::Typed(f) = one.judgement else {
        return one;
    };
    if type_kind(file.bytes, file.sections, f) != 6 {
        return Judged::refused(Broken::WrongSort, at.node, one.at);
    }
    let returned = type_a(file.bytes, file.sections, f);
    if type_kind(file.bytes, file.sections, returned) != 3 {
        return Judged::refused(Broken::VoidOrValue, at.node, one.at);
    }
    let count = type_c(file.bytes, file.sections, f);
    if node_children(file.bytes, file.sections, at.node) != 1 + count {
        return Judged::refused(Broken::Mismatch, at.node, one.at);
    }
    let arguments = At {
        scope: at.scope,
        ..one.at
    };
    let expected = Expected::Run(type_b(file.bytes, file.sections, f));
    let all = list(frame, walk, arguments, count, expected, at.node);
    let Judgement::GoesOn = all.judgement else {
        return all;
    };
    let after = At {
        scope: at.scope,
        ..all.at
    };
    ends(walk.rows, at.node, 0, after)
}
