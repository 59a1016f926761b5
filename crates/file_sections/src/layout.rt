// Where the six sections stand: the tests on counts and on the file's length (numbers 1 and 2).
ghost use Rattle.std.specs.Prelude.{◌≡◌, ◌+◌, ◌*◌, ◌<◌, ◌≤◌, IfOk};
ghost use Rattle.file_sections.specs.Layout.{section_of, sections_of};

use crate::numbers::number;
use crate::{Sections, Unreadable};

// One section: its count, and the number that comes after it.
#[derive(Clone, Copy)]
pub struct Section {
    pub count: usize,
    pub next: usize,
}

// The section whose count is the number `at`, of at most `most` records of `size` numbers.
#[tactic(auto, unfolding(crate::specs::Layout::section_of))]
fn section_at(file: &[u8], at: usize, most: usize, size: usize) -> Result<Section, Unreadable>
    requires { (at < 65536) × (most ≤ 4096) × (size ≤ 4) }
    ensures value { result ≡ section_of file.now at most size }
    ensures near { IfOk result (λ section. section.next ≤ at + 1 + most * size) }
{
    if file.len() < at * 2 + 2 {
        return Err(Unreadable::Length);
    }
    let count = number(file, at);
    if most < count {
        return Err(Unreadable::Count);
    }
    let next = at + 1 + count * size;
    if file.len() < next * 2 {
        return Err(Unreadable::Length);
    }
    Ok(Section { count, next })
}

// All six sections, laid end to end with nothing left over.
#[tactic(auto, unfolding(crate::specs::Layout::front_of, crate::specs::Layout::sections_of))]
pub fn sections(file: &[u8]) -> Result<Sections, Unreadable>
    ensures { result ≡ sections_of file.now }
{
    let types = section_at(file, 0, 512, 4)?;
    let list = section_at(file, types.next, 1024, 1)?;
    let fields = section_at(file, list.next, 1024, 2)?;
    let structs = section_at(file, fields.next, 256, 3)?;
    let built_ins = section_at(file, structs.next, 128, 2)?;
    let nodes = section_at(file, built_ins.next, 4096, 4)?;
    if file.len() != nodes.next * 2 {
        return Err(Unreadable::Length);
    }
    Ok(Sections {
        types: types.count,
        list: list.count,
        list_at: types.next + 1,
        fields: fields.count,
        fields_at: list.next + 1,
        structs: structs.count,
        structs_at: fields.next + 1,
        built_ins: built_ins.count,
        built_ins_at: structs.next + 1,
        nodes: nodes.count,
        nodes_at: built_ins.next + 1,
    })
}
