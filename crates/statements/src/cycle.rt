// The cycle of statements: a dispatcher by node kind, a function for each rule with blocks in it, and those for blocks. The
// remaining nodes fall. Kinds of nodes and of types are numbers, and `let .. else` hands a child's refusal up unchanged: document 01's
// form.
ghost use Rattle.std.specs.Prelude.{◌≡◌, ◌<◌};
ghost use Rattle.oat.specs.Tables.{node_at};
ghost use Rattle.answers.specs.Answers.{tables};
ghost use Rattle.answers.specs.Walks.{SameBuffers};
ghost use Rattle.simple_statements.specs.Contract.{ReadyStmtAt, ToldStmtAt, ToldWhileAt, ToldAnywhereAt};
ghost use Rattle.statements.specs.Contract.{ReadyBlockAt, ToldBlockAt, ReadyStmtsAt, ToldStmtsAt, ReadyArmsAt, ToldArmsAt, ReadyStepAt, ToldStepAt, ReadyTurnAt, ToldTurnAt};

use answers::answer::{At, Broken, Frame, Judged, Judgement, Walk};
use expressions::cycle::expression;
use file_sections::records::{node_children, node_kind, node_t, type_a, type_kind};
use simple_statements::marks::{ends, mark_of, while_mark, with_mark};
use simple_statements::simple::{
    assignment, call_statement, condition, return_value, return_void, variable, variables,
};
use subtyping::below::below;

// The statement at `node`; `last` says whether it is the last of its block, whose bindings stand from the position `start` on.
#[cycle(statements)]
fn statement(frame: &Frame<'_>, walk: &mut Walk<'_>, at: At, last: bool, start: usize) -> Judged
    requires { ReadyStmtAt frame.now walk.old at × (frame.now.result < frame.now.file.sections.types) }
    ensures told { ToldStmtAt frame.now walk.old start last at walk.new result }
    ensures same_buffers { SameBuffers walk.old walk.new }
{
    match node_kind(frame.file.bytes, frame.file.sections, at.node) {
        30 => assignment(frame, walk, at),
        31 => variable(frame, walk, at, start),
        32 => return_value(frame, walk, at),
        33 => return_void(frame, walk, at),
        34 => call_statement(frame, walk, at),
        35 => if_else(frame, walk, at),
        36 => if_null(frame, walk, at),
        37 => for_loop(frame, walk, at),
        _ => while_loop(frame, walk, at, last),
    }
}

// `count` statements from `node` on, in the block at `parent` whose bindings stand from the position `start` on: all but the last go
// on. The mark is the last one's.
#[cycle(statements)]
fn statements(
    frame: &Frame<'_>,
    walk: &mut Walk<'_>,
    at: At,
    count: usize,
    parent: usize,
    start: usize,
) -> Judged
    requires { ReadyStmtsAt frame.now walk.old start at count }
    ensures told { ToldStmtsAt frame.now walk.old start at count parent walk.new result }
    ensures same_buffers { SameBuffers walk.old walk.new }
{
    let mut here = at;
    let mut previous = parent;
    let mut mark = 0;
    for i in 0..count {
        if mark != 0 {
            return Judged::refused(Broken::WrongMark, previous, here);
        }
        let last = i + 1 == count;
        let one = statement(frame, walk, here, last, start);
        if let Judgement::Refused(_, _) = one.judgement {
            return one;
        }
        mark = mark_of(one.judgement);
        previous = here.node;
        here = one.at;
    }
    with_mark(mark, here)
}

// The block at `node`, whose bindings stand from the position `start` on: those that it makes are gone after it.
#[cycle(statements)]
pub fn block(frame: &Frame<'_>, walk: &mut Walk<'_>, at: At, start: usize) -> Judged
    requires { ReadyBlockAt frame.now walk.old start at }
    ensures told { ToldBlockAt frame.now walk.old start at walk.new result }
    ensures same_buffers { SameBuffers walk.old walk.new }
{
    let file = &frame.file;
    let inside = At {
        node: at.node + 1,
        ..at
    };
    let count = node_children(file.bytes, file.sections, at.node);
    let all = statements(frame, walk, inside, count, at.node, start);
    if let Judgement::Refused(_, _) = all.judgement {
        return all;
    }
    walk.bindings
        .leave(file.bytes, file.sections, all.at.scope, at.scope);
    let after = At {
        scope: at.scope,
        ..all.at
    };
    ends(walk.rows, at.node, mark_of(all.judgement), after)
}

// Two inner blocks, the first at `node` in the scope `top`, which is left after it. The mark is 1 where both return.
#[cycle(statements)]
fn arms(frame: &Frame<'_>, walk: &mut Walk<'_>, at: At, top: usize) -> Judged
    requires { ReadyArmsAt frame.now walk.old at top }
    ensures told { ToldArmsAt frame.now walk.old at top walk.new result }
    ensures same_buffers { SameBuffers walk.old walk.new }
{
    let file = &frame.file;
    let one = block(frame, walk, At { scope: top, ..at }, top);
    if let Judgement::Refused(_, _) = one.judgement {
        return one;
    }
    walk.bindings
        .leave(file.bytes, file.sections, top, at.scope);
    let otherwise = At {
        scope: at.scope,
        ..one.at
    };
    let two = block(frame, walk, otherwise, at.scope);
    if let Judgement::Refused(_, _) = two.judgement {
        return two;
    }
    if mark_of(one.judgement) == 0 {
        return Judged::goes_on(two.at);
    }
    two
}

// If: condition, its sort, blocks.
#[cycle(statements)]
fn if_else(frame: &Frame<'_>, walk: &mut Walk<'_>, at: At) -> Judged
    requires ready_stmt { ReadyStmtAt frame.now walk.old at × (frame.now.result < frame.now.file.sections.types) }
    requires node_value { (node_at (tables frame.now.file) at.node).kind ≡ 35 }
    ensures told { ToldAnywhereAt frame.now walk.old at walk.new result }
    ensures same_buffers { SameBuffers walk.old walk.new }
{
    let file = &frame.file;
    let test = At {
        node: at.node + 1,
        ..at
    };
    let one = expression(frame, walk, test);
    let Judgement::Typed(t) = one.judgement else {
        return one;
    };
    if type_kind(file.bytes, file.sections, t) != 1 {
        return Judged::refused(Broken::WrongSort, at.node, one.at);
    }
    let blocks = At {
        scope: at.scope,
        ..one.at
    };
    let both = arms(frame, walk, blocks, at.scope);
    if let Judgement::Refused(_, _) = both.judgement {
        return both;
    }
    let after = At {
        scope: at.scope,
        ..both.at
    };
    ends(walk.rows, at.node, mark_of(both.judgement), after)
}

// If?: value, its sort, subtype, blocks, the name bound in the first.
#[cycle(statements)]
fn if_null(frame: &Frame<'_>, walk: &mut Walk<'_>, at: At) -> Judged
    requires ready_stmt { ReadyStmtAt frame.now walk.old at × (frame.now.result < frame.now.file.sections.types) }
    requires node_value { (node_at (tables frame.now.file) at.node).kind ≡ 36 }
    ensures told { ToldAnywhereAt frame.now walk.old at walk.new result }
    ensures same_buffers { SameBuffers walk.old walk.new }
{
    let file = &frame.file;
    let value = At {
        node: at.node + 1,
        ..at
    };
    let one = expression(frame, walk, value);
    let Judgement::Typed(u) = one.judgement else {
        return one;
    };
    if type_kind(file.bytes, file.sections, u) != 7 {
        return Judged::refused(Broken::WrongSort, at.node, one.at);
    }
    let t = node_t(file.bytes, file.sections, at.node);
    let referred = type_a(file.bytes, file.sections, u);
    let asked = below(file.bytes, file.sections, file.index, referred, t);
    let tested = one.at.counting(asked);
    if !asked.holds {
        return Judged::refused(Broken::NotSubtype, at.node, tested);
    }
    walk.bindings
        .bind(file.bytes, file.sections, at.scope, at.node, t);
    let blocks = At {
        scope: at.scope,
        ..tested
    };
    let both = arms(frame, walk, blocks, at.scope + 1);
    if let Judgement::Refused(_, _) = both.judgement {
        return both;
    }
    let after = At {
        scope: at.scope,
        ..both.at
    };
    ends(walk.rows, at.node, mark_of(both.judgement), after)
}

// For: vars, condition, step, block; what it binds is gone after it.
#[cycle(statements)]
fn for_loop(frame: &Frame<'_>, walk: &mut Walk<'_>, at: At) -> Judged
    requires ready_stmt { ReadyStmtAt frame.now walk.old at × (frame.now.result < frame.now.file.sections.types) }
    requires node_value { (node_at (tables frame.now.file) at.node).kind ≡ 37 }
    ensures told { ToldAnywhereAt frame.now walk.old at walk.new result }
    ensures same_buffers { SameBuffers walk.old walk.new }
{
    let file = &frame.file;
    let inside = At {
        node: at.node + 1,
        ..at
    };
    let count = node_children(file.bytes, file.sections, at.node) - 3;
    let one = variables(frame, walk, inside, count, at.scope);
    let Judgement::GoesOn = one.judgement else {
        return one;
    };
    let two = condition(frame, walk, one.at, at.node);
    let Judgement::GoesOn = two.judgement else {
        return two;
    };
    let height = one.at.scope;
    let repeated = At {
        scope: height,
        ..two.at
    };
    let three = turn(frame, walk, repeated, at.scope);
    if let Judgement::Refused(_, _) = three.judgement {
        return three;
    }
    walk.bindings
        .leave(file.bytes, file.sections, height, at.scope);
    let after = At {
        scope: at.scope,
        ..three.at
    };
    ends(walk.rows, at.node, 0, after)
}

// The step of a for, in the block of its vars, whose bindings stand from the position `start` on, and its block, an inner one.
#[cycle(statements)]
fn turn(frame: &Frame<'_>, walk: &mut Walk<'_>, at: At, start: usize) -> Judged
    requires { ReadyTurnAt frame.now walk.old start at }
    ensures told { ToldTurnAt frame.now walk.old start at walk.new result }
    ensures same_buffers { SameBuffers walk.old walk.new }
{
    let one = step(frame, walk, at, start);
    let Judgement::GoesOn = one.judgement else {
        return one;
    };
    let repeated = At {
        scope: at.scope,
        ..one.at
    };
    block(frame, walk, repeated, at.scope)
}

// The step of a for, or 40: a returning one breaks at itself, and what it binds is gone. It is not the last of a block.
#[cycle(statements)]
fn step(frame: &Frame<'_>, walk: &mut Walk<'_>, at: At, start: usize) -> Judged
    requires { ReadyStepAt frame.now walk.old start at }
    ensures told { ToldStepAt frame.now walk.old start at walk.new result }
    ensures same_buffers { SameBuffers walk.old walk.new }
{
    let file = &frame.file;
    if node_kind(file.bytes, file.sections, at.node) == 40 {
        let after = At {
            node: at.node + 1,
            ..at
        };
        return ends(walk.rows, at.node, 0, after);
    }
    let one = statement(frame, walk, at, false, start);
    if let Judgement::Refused(_, _) = one.judgement {
        return one;
    }
    if mark_of(one.judgement) != 0 {
        return Judged::refused(Broken::WrongMark, at.node, one.at);
    }
    walk.bindings
        .leave(file.bytes, file.sections, one.at.scope, at.scope);
    Judged::goes_on(At {
        scope: at.scope,
        ..one.at
    })
}

// While: condition, its sort, block. The mark is 1 where it never ends and is the last of its block.
#[cycle(statements)]
fn while_loop(frame: &Frame<'_>, walk: &mut Walk<'_>, at: At, last: bool) -> Judged
    requires ready_stmt { ReadyStmtAt frame.now walk.old at × (frame.now.result < frame.now.file.sections.types) }
    requires node_value { (node_at (tables frame.now.file) at.node).kind ≡ 38 }
    ensures told { ToldWhileAt frame.now walk.old last at walk.new result }
    ensures same_buffers { SameBuffers walk.old walk.new }
{
    let file = &frame.file;
    let test = at.node + 1;
    let one = expression(frame, walk, At { node: test, ..at });
    let Judgement::Typed(t) = one.judgement else {
        return one;
    };
    if type_kind(file.bytes, file.sections, t) != 1 {
        return Judged::refused(Broken::WrongSort, at.node, one.at);
    }
    let repeated = At {
        scope: at.scope,
        ..one.at
    };
    let two = block(frame, walk, repeated, at.scope);
    if let Judgement::Refused(_, _) = two.judgement {
        return two;
    }
    let mark = while_mark(file.bytes, file.sections, test, last);
    let after = At {
        scope: at.scope,
        ..two.at
    };
    ends(walk.rows, at.node, mark, after)
}
