// Bindings of names: the file's built-ins first, then the stack in `work` of functions, globals and locals, two numbers each, binder
// and type. A position counts both. A scope is a height, the position after its latest binding; a name binds what its binder's node
// names. `chains` leads from a name to its latest position: its first 512 numbers are the heads of chains, one for the names of each
// remainder by 512, and the number 512 + j leads from the position j to the one before it in its chain; all one higher, 0 for none.
#![tactic(auto)]

ghost use Rattle.std.specs.Prelude.{◌≡◌, ◌+◌, ◌*◌, ◌%◌, ◌≤◌, ◌<◌, length, get_or, set};
ghost use Rattle.file_sections.specs.Layout.{tables_of};
ghost use Rattle.bindings.specs.Bindings.{binder_of, type_bound, name_bound, Position, Scoped, Some as Holding, SomeFrom, Finds, Freshness, Assignability, Bindable, Bound};
ghost use Rattle.bindings.specs.Buffers.{SameWork};

use file_sections::Sections;
use file_sections::records::{built_in_name, built_in_type, node_kind, node_x};

// The chains: 512 heads, and a link for each of 128 built-ins and 4,096 nodes.
// 0 for none, since memory is fixed and an Option<u16> takes twice the room.
pub type Chains = [u16; 4736];

// What is read of bindings takes the two slices, so that who only reads lends no more.

// The binder of a position: 40,000 plus the built-in's number, or a node.
// One number and no enum, since a row holds it: the C interface.
#[tactic(auto, using(file_sections::proofs::LawsRecords::built_ins_long), unfolding(crate::specs::Bindings::binder_of))]
pub fn binder_at(file: &[u8], sections: Sections, work: &[u16], position: usize) -> usize
    requires { Position file.now sections work.now position }
    ensures { (result ≡ binder_of (tables_of file.now sections) work.now position) × (result < 65536) }
{
    if position < sections.built_ins {
        return 40000 + position;
    }
    usize::from(work[(position - sections.built_ins) * 2])
}

// The type of a position.
#[tactic(auto, using(file_sections::proofs::LawsRecords::built_ins_long), unfolding(crate::specs::Bindings::type_bound))]
pub fn type_at(file: &[u8], sections: Sections, work: &[u16], position: usize) -> usize
    requires { Position file.now sections work.now position }
    ensures { (result ≡ type_bound (tables_of file.now sections) work.now position) × (result < 65536) }
{
    if position < sections.built_ins {
        return built_in_type(file, sections, position);
    }
    usize::from(work[(position - sections.built_ins) * 2 + 1])
}

// The name of a position.
#[tactic(auto, using(file_sections::proofs::LawsRecords::built_ins_long), unfolding(crate::specs::Bindings::name_bound))]
pub fn name_at(file: &[u8], sections: Sections, work: &[u16], position: usize) -> usize
    requires { Position file.now sections work.now position }
    ensures { (result ≡ name_bound (tables_of file.now sections) work.now position) × (result < 65536) }
{
    if position < sections.built_ins {
        return built_in_name(file, sections, position);
    }
    let binder = usize::from(work[(position - sections.built_ins) * 2]);
    node_x(file, sections, binder)
}

// The latest position of the name.
pub fn find(
    file: &[u8],
    sections: Sections,
    work: &[u16],
    chains: &[u16],
    name: usize,
) -> Option<usize>
    requires { Holding file.now sections work.now chains.now }
    ensures { Finds file.now sections work.now chains.now name result }
{
    // The loop follows links and counts nothing. It isn't type_index's walk: that one takes the number of positions, here the
    // scope's height, which `find` isn't given.
    let mut after = usize::from(chains[name % 512]);
    while 0 < after {
        let position = after - 1;
        if name_at(file, sections, work, position) == name {
            return Some(position);
        }
        after = usize::from(chains[512 + position]);
    }
    None
}

// The block whose bindings stand from the position `start` on has not bound the name.
pub fn is_fresh(
    file: &[u8],
    sections: Sections,
    work: &[u16],
    chains: &[u16],
    start: usize,
    name: usize,
) -> bool
    requires { Holding file.now sections work.now chains.now }
    ensures { Freshness file.now sections work.now chains.now start name result }
{
    find(file, sections, work, chains, name).is_none_or(|position| position < start)
}

// The name is not that of a function or of a built-in, or a local hides it.
pub fn is_assignable(
    file: &[u8],
    sections: Sections,
    work: &[u16],
    chains: &[u16],
    base: usize,
    name: usize,
) -> bool
    requires { SomeFrom file.now sections work.now chains.now base }
    ensures { Assignability file.now sections work.now chains.now base name result }
{
    let Some(position) = find(file, sections, work, chains, name) else {
        return true;
    };
    base <= position
        || sections.built_ins <= position
            && node_kind(file, sections, binder_at(file, sections, work, position)) == 1
}

// Puts the position, which has the name, first in its chain.
pub fn link(chains: &mut [u16], position: usize, name: usize)
    requires { (4736 ≤ length chains.old) × (position < 4224) }
    ensures { chains.new ≡ set (set chains.old (512 + position) (get_or chains.old (name % 512) 0)) (name % 512) (position + 1) }
{
    chains::link(chains, name % 512, 512 + position, position + 1);
}

// Takes the position, which has the name and is first in its chain, out of it.
fn unlink(chains: &mut [u16], position: usize, name: usize)
    requires { (4736 ≤ length chains.old) × (position < 4224) }
    ensures { chains.new ≡ set chains.old (name % 512) (get_or chains.old (512 + position) 0) }
{
    chains[name % 512] = chains[512 + position];
}

// Binds the name of the node, with the type t, at the position `scope`.
pub fn bind(
    file: &[u8],
    sections: Sections,
    work: &mut [u16],
    chains: &mut [u16],
    scope: usize,
    node: usize,
    t: usize,
)
    requires { Bindable file.now sections work.old chains.old scope node t }
    ensures { Bound file.now sections work.old chains.old scope node t work.new chains.new }
{
    let entry = (scope - sections.built_ins) * 2;
    work[entry] = node as u16;
    work[entry + 1] = t as u16;
    link(chains, scope, node_x(file, sections, node));
}

// Goes back from the scope `from` to the scope `to`.
pub fn leave(
    file: &[u8],
    sections: Sections,
    work: &[u16],
    chains: &mut [u16],
    from: usize,
    to: usize,
)
    requires { Scoped file.now sections work.now chains.old from × (to ≤ from) }
    ensures { Scoped file.now sections work.now chains.new to }
{
    for position in (to..from).rev() {
        let name = name_at(file, sections, work, position);
        unlink(chains, position, name);
    }
}

// The stack and the chains of its positions.
#[derive(Drop)]
pub struct Bindings<'a> {
    pub work: &'a mut [u16],
    pub chains: Chains,
}

impl Bindings<'_> {
    // The block whose bindings stand from the position `start` on has not bound the name.
    pub fn is_fresh(&self, file: &[u8], sections: Sections, start: usize, name: usize) -> bool
        requires { Holding file.now sections self.now.work.now self.now.chains }
        ensures { Freshness file.now sections self.now.work.now self.now.chains start name result }
    {
        is_fresh(file, sections, self.work, &self.chains, start, name)
    }

    // Puts the position, which has the name, first in its chain.
    pub fn link(&mut self, position: usize, name: usize)
        requires { position < 4224 }
        ensures chains_after { self.new.chains ≡ set (set self.old.chains (512 + position) (get_or self.old.chains (name % 512) 0)) (name % 512) (position + 1) }
        ensures work_unchanged { self.new.work ≡ self.old.work }
    {
        link(&mut self.chains, position, name);
    }

    // Binds the name of the node, with the type t, at the position `scope`.
    pub fn bind(&mut self, file: &[u8], sections: Sections, scope: usize, node: usize, t: usize)
        requires { Bindable file.now sections self.old.work.now self.old.chains scope node t }
        ensures bound { Bound file.now sections self.old.work.now self.old.chains scope node t self.new.work.now self.new.chains }
        ensures same_work { SameWork self.old self.new }
    {
        bind(file, sections, self.work, &mut self.chains, scope, node, t);
    }

    // Goes back from the scope `from` to the scope `to`.
    pub fn leave(&mut self, file: &[u8], sections: Sections, from: usize, to: usize)
        requires { Scoped file.now sections self.old.work.now self.old.chains from × (to ≤ from) }
        ensures left { Scoped file.now sections self.old.work.now self.new.chains to }
        ensures work_unchanged { self.new.work ≡ self.old.work }
    {
        let work = &mut *self.work;
        leave(file, sections, &*work, &mut self.chains, from, to);
    }
}
