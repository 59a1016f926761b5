// The context, by value, and its steps.
ghost use Rattle.std.specs.Prelude.{◌≡◌, ◌+◌, ◌<◌};
ghost use Rattle.typing_rules.specs.Steps.{built_in, struct_fields};
ghost use Rattle.answers.specs.Answers.{broken_number};
ghost use Rattle.answers.specs.Walks.{SameBuffers};
ghost use Rattle.steps.specs.Contract.{with_struct, with_name, with_step, summing, refusal_at, Refusing, HandsUp, AnsweredAt, RowlessAt, ReadyStruct, ToldStruct, ReadyBuiltInAt, ReadyHeadingAt, ToldHeadingAt, ReadyGlobalAt, ToldGlobalAt, ReadyFieldsAt, ReadyBodyAt, ToldBodyAt};
ghost use Rattle.bindings.specs.Buffers.{SameWork};

use crate::names::{is_new, is_new_in, times, types_formed};
use crate::parameters::parameters;
use answers::answer::{At, Broken, Frame, Judgement, Walk, row};
use answers::file::IndexedFile;
use bindings::{Bindings, Chains, link};
use expressions::cycle::expression;
use fields::distinct::are_distinct;
use file_sections::Sections;
use file_sections::records::{
    built_in_name, built_in_type, node_t, node_x, struct_count, struct_first, struct_name, type_a,
    type_b, type_c,
};
use statements::cycle::block;
use type_index::formed::is_formed;

// How many structs are declared, how many names of built-ins, functions and globals, how many steps are done, and how many pairs of types
// were compared.
#[derive(Clone, Copy, PartialEq, Eq)]
pub struct Context {
    pub structs: usize,
    pub names: usize,
    pub steps: usize,
    pub pairs: usize,
}

// The number, the step and the place of a refusal, and how many pairs of types were compared up to it.
#[derive(Clone, Copy, PartialEq, Eq)]
pub struct Refusal {
    pub number: usize,
    pub step: usize,
    pub place: usize,
    pub pairs: usize,
}

impl Context {
    // The context before the first step.
    pub fn empty() -> Context
        ensures { result ≡ record { structs = 0; names = 0; steps = 0; pairs = 0 } }
    {
        Context {
            structs: 0,
            names: 0,
            steps: 0,
            pairs: 0,
        }
    }

    fn with_struct(self) -> Context
        requires { (self.structs < 65536) × (self.steps < 65536) }
        ensures { result ≡ with_struct self }
    {
        Context {
            structs: self.structs + 1,
            steps: self.steps + 1,
            ..self
        }
    }

    fn with_name(self) -> Context
        requires { (self.names < 65536) × (self.steps < 65536) }
        ensures { result ≡ with_name self }
    {
        Context {
            names: self.names + 1,
            steps: self.steps + 1,
            ..self
        }
    }

    fn with_step(self) -> Context
        requires { self.steps < 65536 }
        ensures { result ≡ with_step self }
    {
        Context {
            steps: self.steps + 1,
            ..self
        }
    }

    // With another sum of pairs.
    fn summing(self, pairs: usize) -> Context
        ensures { result ≡ summing pairs self }
    {
        Context { pairs, ..self }
    }

    // The refusal of the next step, at a place.
    fn refusal(self, broken: Broken, place: usize) -> Refusal
        ensures { result ≡ refusal_at self (broken_number broken) place }
    {
        Refusal {
            number: usize::from(broken.number()),
            step: self.steps,
            place,
            pairs: self.pairs,
        }
    }

    // The refusal that a judgement hands up; it is called with refusals alone.
    fn handed_up(self, judgement: Judgement) -> Refusal
        requires { Refusing judgement }
        ensures { HandsUp self judgement result }
    {
        match judgement {
            Judgement::Refused(number, place) => Refusal {
                number,
                step: self.steps,
                place,
                pairs: self.pairs,
            },
            Judgement::Typed(_) | Judgement::GoesOn | Judgement::Returns => unreachable!(),
        }
    }

    // The name of the struct i; `names` has those of the structs before it.
    pub fn struct_step(
        self,
        file: &[u8],
        sections: Sections,
        names: &mut [u16],
        i: usize,
    ) -> Result<Context, Refusal>
        requires { ReadyStruct file.now sections names.old self i }
        ensures { ToldStruct file.now sections self i names.new result }
    {
        let name = struct_name(file, sections, i) as u16;
        if times(&*names, i, name) != 0 {
            return Err(self.refusal(Broken::BoundTwice, i));
        }
        names[i] = name;
        Ok(self.with_struct())
    }

    // The built-in i.
    pub fn built_in_step(
        self,
        file: &IndexedFile<'_>,
        work: &[u16],
        chains: &mut Chains,
        i: usize,
    ) -> Result<Context, Refusal>
        requires { ReadyBuiltInAt file.now work.now chains.old self i }
        ensures { RowlessAt file.now self (built_in i) work.now work.now chains.new result }
    {
        if !is_formed(file.index, built_in_type(file.bytes, file.sections, i)) {
            return Err(self.refusal(Broken::Undeclared, i));
        }
        let name = built_in_name(file.bytes, file.sections, i);
        if !is_new_in(file, work, &*chains, name) {
            return Err(self.refusal(Broken::BoundTwice, i));
        }
        link(chains, i, name);
        Ok(self.with_name())
    }

    // The heading of the function at `node`.
    pub fn heading_step(
        self,
        file: &IndexedFile<'_>,
        bindings: &mut Bindings<'_>,
        node: usize,
    ) -> Result<Context, Refusal>
        requires { ReadyHeadingAt file.now bindings.old self node }
        ensures told { ToldHeadingAt file.now bindings.old self node bindings.new result }
        ensures same_work { SameWork bindings.old bindings.new }
    {
        let t = node_t(file.bytes, file.sections, node);
        if !is_formed(file.index, t) {
            return Err(self.refusal(Broken::Undeclared, node));
        }
        let name = node_x(file.bytes, file.sections, node);
        if !is_new(file, bindings, name) {
            return Err(self.refusal(Broken::BoundTwice, node));
        }
        bindings.bind(file.bytes, file.sections, self.names, node, t);
        Ok(self.with_name())
    }

    // The global at `node`: its initializer, in the context of the names before it, then its name.
    pub fn global_step(
        self,
        file: &IndexedFile<'_>,
        walk: &mut Walk<'_>,
        node: usize,
    ) -> Result<Context, Refusal>
        requires { ReadyGlobalAt file.now walk.old self node }
        ensures told { ToldGlobalAt file.now walk.old self node walk.new result }
        ensures same_buffers { SameBuffers walk.old walk.new }
    {
        let frame = Frame {
            file: *file,
            base: self.names,
            result: 0,
        };
        let at = At {
            node: node + 1,
            scope: self.names,
            pairs: self.pairs,
        };
        let value = expression(&frame, walk, at);
        let after = self.summing(value.at.pairs);
        let Judgement::Typed(t) = value.judgement else {
            return Err(after.handed_up(value.judgement));
        };
        let name = node_x(file.bytes, file.sections, node);
        if !is_new(file, &walk.bindings, name) {
            return Err(after.refusal(Broken::BoundTwice, node));
        }
        walk.bindings
            .bind(file.bytes, file.sections, self.names, node, t);
        row(walk.rows, node, t, 65535);
        Ok(after.with_name())
    }

    // The fields of the struct i.
    pub fn fields_step(self, file: &IndexedFile<'_>, i: usize) -> Result<Context, Refusal>
        requires { ReadyFieldsAt file.now self i }
        ensures { AnsweredAt file.now self (struct_fields i) result }
    {
        let first = struct_first(file.bytes, file.sections, i);
        let count = struct_count(file.bytes, file.sections, i);
        if !types_formed(file, first, count) {
            return Err(self.refusal(Broken::Undeclared, i));
        }
        if !are_distinct(file.bytes, file.sections, i) {
            return Err(self.refusal(Broken::BoundTwice, i));
        }
        Ok(self.with_step())
    }

    // The body of the function at `node`: its parameters, then its block, which must return.
    pub fn body_step(
        self,
        file: &IndexedFile<'_>,
        walk: &mut Walk<'_>,
        node: usize,
    ) -> Result<Context, Refusal>
        requires { ReadyBodyAt file.now walk.old self node }
        ensures told { ToldBodyAt file.now walk.old self node walk.new result }
        ensures same_buffers { SameBuffers walk.old walk.new }
    {
        let t = node_t(file.bytes, file.sections, node);
        let first = type_b(file.bytes, file.sections, t);
        let count = type_c(file.bytes, file.sections, t);
        if !parameters(file, walk, self.names, node, first, count) {
            return Err(self.refusal(Broken::BoundTwice, node));
        }
        let frame = Frame {
            file: *file,
            base: self.names,
            result: type_a(file.bytes, file.sections, t),
        };
        let at = At {
            node: node + 1 + count,
            scope: self.names + count,
            pairs: self.pairs,
        };
        let body = block(&frame, walk, at, self.names);
        let after = self.summing(body.at.pairs);
        if let Judgement::Refused(_, _) = body.judgement {
            return Err(after.handed_up(body.judgement));
        }
        let Judgement::Returns = body.judgement else {
            return Err(after.refusal(Broken::WrongMark, node));
        };
        walk.bindings
            .leave(file.bytes, file.sections, at.scope, self.names);
        row(walk.rows, node, 1, 65535);
        Ok(after.with_step())
    }
}
