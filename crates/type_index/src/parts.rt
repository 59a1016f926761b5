// The parts of types (document 01, 'The program file'): 1 for the type itself, plus those of what it refers to. The entry 2112 + i of
// the index is the number of parts of the type i.
ghost use Rattle.std.specs.Prelude.{◌≡◌, ◌*◌, ◌<◌, ◌≤◌, length};
ghost use Rattle.oat.specs.TypeRules.{kind_at};
ghost use Rattle.oat.specs.Types.{type_of};
ghost use Rattle.oat.specs.Pairs.{parts_ty};
ghost use Rattle.file_sections.specs.Layout.{tables_of, GoodTables};
ghost use Rattle.type_index.specs.Index.{parts_entry, params_parts, Entered, Indexed, Listed};

use crate::entries::entry;
use file_sections::Sections;
use file_sections::records::{list_entry, type_a, type_b, type_c};

// What the index has for the parts of the type i: where i is indexed, their number.
#[tactic(auto, unfolding(crate::specs::Index::parts_entry))]
pub fn parts_of(index: &[u16], i: usize) -> usize
    requires { Entered index.now i }
    ensures { (result ≡ parts_entry index.now i) × (result < 65536) }
{
    entry(index, 2112 + i)
}

// The parts of `count` parameters from the entry `first` of the type list on.
pub fn params_parts(
    file: &[u8],
    sections: Sections,
    index: &[u16],
    first: usize,
    count: usize,
) -> usize
    requires { Listed file.now sections first count × (2624 ≤ length index.now) }
    ensures { (result ≡ params_parts index.now (tables_of file.now sections) first count) × (result ≤ 65535 * count) }
{
    (0..count)
        .map(|j| parts_of(index, list_entry(file, sections, first + j)))
        .sum()
}

// The parts of the function type i, where lower types are indexed.
pub fn function_parts(file: &[u8], sections: Sections, index: &[u16], i: usize) -> usize
    requires good_tables { GoodTables file.now sections × (i < sections.types) × Indexed index.now (tables_of file.now sections) i }
    requires i_value { kind_at (tables_of file.now sections) i ≡ 6 }
    ensures { result ≡ parts_ty (type_of (tables_of file.now sections) i) }
{
    let sum = params_parts(
        file,
        sections,
        index,
        type_b(file, sections, i),
        type_c(file, sections, i),
    );
    1 + sum + parts_of(index, type_a(file, sections, i))
}
