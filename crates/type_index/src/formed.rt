// Well-formed types. The entry 512 + i of the index is the first record of the struct that the type i names, or the number of
// structs; the entry 1024 + i is 1 where the type i is well-formed, else 0.
ghost use Rattle.std.specs.Prelude.{◌≡◌, ◌<◌, ◌≤◌, length};
ghost use Rattle.oat.specs.TypeRules.{kind_at};
ghost use Rattle.oat.specs.Types.{type_of};
ghost use Rattle.oat.specs.Decide.{is_formed};
ghost use Rattle.file_sections.specs.Layout.{tables_of, GoodTables};
ghost use Rattle.type_index.specs.Index.{declared, struct_entry, formed_entry, params_formed, Entered, Indexed, Listed};

use crate::entries::entry;
use file_sections::Sections;
use file_sections::records::{list_entry, type_a, type_b, type_c};

// What the index has for the struct that the type i names: where i is indexed, its first record, or the number of structs.
#[tactic(auto, unfolding(crate::specs::Index::struct_entry))]
pub fn struct_record(index: &[u16], i: usize) -> usize
    requires { Entered index.now i }
    ensures { result ≡ struct_entry index.now i }
{
    entry(index, 512 + i)
}

// The index has i for well-formed: where i is indexed, this type is well-formed, as a return type.
#[tactic(auto, unfolding(crate::specs::Index::formed_entry))]
pub fn is_formed(index: &[u16], i: usize) -> bool
    requires { Entered index.now i }
    ensures { result ≡ formed_entry index.now i }
{
    entry(index, 1024 + i) == 1
}

// `count` parameters from the entry `first` of the type list on are well-formed.
fn params_formed(file: &[u8], sections: Sections, index: &[u16], first: usize, count: usize) -> bool
    requires { Listed file.now sections first count × (2624 ≤ length index.now) }
    ensures { result ≡ params_formed index.now (tables_of file.now sections) first count }
{
    (0..count).all(|j| is_formed(index, list_entry(file, sections, first + j)))
}

// The function type i is well-formed, where lower types are indexed.
pub fn function_formed(file: &[u8], sections: Sections, index: &[u16], i: usize) -> bool
    requires good_tables { GoodTables file.now sections × (i < sections.types) × Indexed index.now (tables_of file.now sections) i }
    requires i_value { kind_at (tables_of file.now sections) i ≡ 6 }
    ensures { result ≡ is_formed (declared (tables_of file.now sections)) (type_of (tables_of file.now sections) i) }
{
    let first = type_b(file, sections, i);
    let count = type_c(file, sections, i);
    params_formed(file, sections, index, first, count)
        && is_formed(index, type_a(file, sections, i))
}
