// Readers of single records, of a file whose sections are laid. Each names the part of the record that it reads: one function with the part's place as
// a number would be no plainer, since neither its name nor its contract could say which part it is.
#![tactic(auto, using(oat::proofs::LawsBasics::tabulate_at), unfolding(crate::specs::Layout::tables_of, crate::specs::Layout::records_at))]

ghost use Rattle.std.specs.Prelude.{◌≡◌, ◌<◌};
ghost use Rattle.oat.specs.Tables.{type_at, entry_at, field_at, struct_at, built_in_at, node_at};
ghost use Rattle.file_sections.specs.Layout.{Has, tables_of};

use crate::Sections;
use crate::numbers::number;

pub fn type_kind(file: &[u8], sections: Sections, i: usize) -> usize
    requires { Has file.now sections i sections.types }
    ensures { (result ≡ (type_at (tables_of file.now sections) i).kind) × (result < 65536) }
{
    number(file, 1 + i * 4)
}

pub fn type_a(file: &[u8], sections: Sections, i: usize) -> usize
    requires { Has file.now sections i sections.types }
    ensures { (result ≡ (type_at (tables_of file.now sections) i).a) × (result < 65536) }
{
    number(file, 1 + i * 4 + 1)
}

pub fn type_b(file: &[u8], sections: Sections, i: usize) -> usize
    requires { Has file.now sections i sections.types }
    ensures { (result ≡ (type_at (tables_of file.now sections) i).b) × (result < 65536) }
{
    number(file, 1 + i * 4 + 2)
}

pub fn type_c(file: &[u8], sections: Sections, i: usize) -> usize
    requires { Has file.now sections i sections.types }
    ensures { (result ≡ (type_at (tables_of file.now sections) i).c) × (result < 65536) }
{
    number(file, 1 + i * 4 + 3)
}

pub fn list_entry(file: &[u8], sections: Sections, i: usize) -> usize
    requires { Has file.now sections i sections.list }
    ensures { (result ≡ entry_at (tables_of file.now sections) i) × (result < 65536) }
{
    number(file, sections.list_at + i)
}

pub fn field_name(file: &[u8], sections: Sections, i: usize) -> usize
    requires { Has file.now sections i sections.fields }
    ensures { (result ≡ (field_at (tables_of file.now sections) i).name) × (result < 65536) }
{
    number(file, sections.fields_at + i * 2)
}

pub fn field_type(file: &[u8], sections: Sections, i: usize) -> usize
    requires { Has file.now sections i sections.fields }
    ensures { (result ≡ (field_at (tables_of file.now sections) i).type) × (result < 65536) }
{
    number(file, sections.fields_at + i * 2 + 1)
}

pub fn struct_name(file: &[u8], sections: Sections, i: usize) -> usize
    requires { Has file.now sections i sections.structs }
    ensures { (result ≡ (struct_at (tables_of file.now sections) i).name) × (result < 65536) }
{
    number(file, sections.structs_at + i * 3)
}

pub fn struct_first(file: &[u8], sections: Sections, i: usize) -> usize
    requires { Has file.now sections i sections.structs }
    ensures { (result ≡ (struct_at (tables_of file.now sections) i).first) × (result < 65536) }
{
    number(file, sections.structs_at + i * 3 + 1)
}

pub fn struct_count(file: &[u8], sections: Sections, i: usize) -> usize
    requires { Has file.now sections i sections.structs }
    ensures { (result ≡ (struct_at (tables_of file.now sections) i).count) × (result < 65536) }
{
    number(file, sections.structs_at + i * 3 + 2)
}

pub fn built_in_name(file: &[u8], sections: Sections, i: usize) -> usize
    requires { Has file.now sections i sections.built_ins }
    ensures { (result ≡ (built_in_at (tables_of file.now sections) i).name) × (result < 65536) }
{
    number(file, sections.built_ins_at + i * 2)
}

pub fn built_in_type(file: &[u8], sections: Sections, i: usize) -> usize
    requires { Has file.now sections i sections.built_ins }
    ensures { (result ≡ (built_in_at (tables_of file.now sections) i).type) × (result < 65536) }
{
    number(file, sections.built_ins_at + i * 2 + 1)
}

pub fn node_kind(file: &[u8], sections: Sections, i: usize) -> usize
    requires { Has file.now sections i sections.nodes }
    ensures { (result ≡ (node_at (tables_of file.now sections) i).kind) × (result < 65536) }
{
    number(file, sections.nodes_at + i * 4)
}

pub fn node_x(file: &[u8], sections: Sections, i: usize) -> usize
    requires { Has file.now sections i sections.nodes }
    ensures { (result ≡ (node_at (tables_of file.now sections) i).x) × (result < 65536) }
{
    number(file, sections.nodes_at + i * 4 + 1)
}

pub fn node_t(file: &[u8], sections: Sections, i: usize) -> usize
    requires { Has file.now sections i sections.nodes }
    ensures { (result ≡ (node_at (tables_of file.now sections) i).t) × (result < 65536) }
{
    number(file, sections.nodes_at + i * 4 + 2)
}

pub fn node_children(file: &[u8], sections: Sections, i: usize) -> usize
    requires { Has file.now sections i sections.nodes }
    ensures { (result ≡ (node_at (tables_of file.now sections) i).children) × (result < 65536) }
{
    number(file, sections.nodes_at + i * 4 + 3)
}
