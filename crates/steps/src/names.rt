// Names that are new, how often a name stands among others, and the types of fields.
ghost use Rattle.std.specs.Prelude.{◌≡◌, ◌+◌, ◌≤◌, ◌<◌, length};
ghost use Rattle.bindings.specs.Bindings.{Some as Holding};
ghost use Rattle.answers.specs.Answers.{tables};
ghost use Rattle.steps.specs.Contract.{Newness, types_formed, times_in};

use answers::file::IndexedFile;
use bindings::{Bindings, find};
use file_sections::records::field_type;
use type_index::formed::is_formed;

// The name is that of no built-in, function or global.
pub fn is_new(file: &IndexedFile<'_>, bindings: &Bindings<'_>, name: usize) -> bool
    requires { Holding file.now.bytes.now file.now.sections bindings.now.work.now bindings.now.chains }
    ensures { Newness file.now.bytes.now file.now.sections bindings.now.work.now bindings.now.chains name result }
{
    is_new_in(file, bindings.work, &bindings.chains, name)
}

// The same, where the stack and its chains are lent to be read.
pub fn is_new_in(file: &IndexedFile<'_>, work: &[u16], chains: &[u16], name: usize) -> bool
    requires { Holding file.now.bytes.now file.now.sections work.now chains.now }
    ensures { Newness file.now.bytes.now file.now.sections work.now chains.now name result }
{
    find(file.bytes, file.sections, work, chains, name).is_none()
}

// The types of `count` fields from `first` on are well-formed.
pub fn types_formed(file: &IndexedFile<'_>, first: usize, count: usize) -> bool
    requires { first + count ≤ file.now.sections.fields }
    ensures { result ≡ types_formed file.now.index.now (tables file.now) first count }
{
    // No `all`: that the closure may be called at each index didn't prove.
    for i in 0..count {
        if !is_formed(file.index, field_type(file.bytes, file.sections, first + i)) {
            return false;
        }
    }
    true
}

// How often the name stands among the first `count` names.
pub fn times(names: &[u16], count: usize, name: u16) -> u16
    requires { (count ≤ length names.now) × (count < 65536) }
    ensures { result ≡ times_in names.now count name }
{
    // Counted to the end, in 16 bits, so that LLVM makes vector instructions of it (DECISIONS.md): no `contains`, which branches out.
    let mut found = 0;
    for other in &names[..count] {
        if *other == name {
            found += 1;
        }
    }
    found
}
