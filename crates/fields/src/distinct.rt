// Fields with distinct names. Names are compared where they stand in the file.
ghost use Rattle.std.specs.Prelude.{◌≡◌, ◌<◌};
ghost use Rattle.oat.specs.Types.{struct_of};
ghost use Rattle.typing_rules.specs.Steps.{distinct_fields};
ghost use Rattle.file_sections.specs.Layout.{tables_of, GoodTables};

use crate::lookup::field_among;
use file_sections::Sections;
use file_sections::records::{field_name, struct_count, struct_first};

// No two fields of the struct record `owner` have one name. A name above all before it is a new one.
pub fn are_distinct(file: &[u8], sections: Sections, owner: usize) -> bool
    requires { GoodTables file.now sections × (owner < sections.structs) }
    ensures { result ≡ distinct_fields (struct_of (tables_of file.now sections) owner).fields }
{
    let first = struct_first(file, sections, owner);
    let mut above = 0;
    for i in 0..struct_count(file, sections, owner) {
        let name = field_name(file, sections, first + i);
        if above <= name {
            above = name + 1;
        } else if field_among(file, sections, name, first, i).is_some() {
            return false;
        }
    }
    true
}
