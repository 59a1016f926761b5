// A field by its name.
ghost use Rattle.std.specs.Prelude.{◌≡◌, ◌+◌, ◌≤◌, ◌<◌};
ghost use Rattle.typing_rules.specs.Judge.{field_among};
ghost use Rattle.file_sections.specs.Layout.{Laid, tables_of, GoodTables};
ghost use Rattle.fields.specs.Lookup.{number_of, field_in};

use file_sections::Sections;
use file_sections::records::{field_name, field_type, struct_count, struct_first};

// The type of the field `name` among `count` fields from `first` on; the first of that name. (Names are compared as the 16 bits that they are in
// the file, and in a function of its own, so that the loop is short and aligned: as part of a larger function it took 0.9 to 1.7 of the time, by
// where a program was linked.)
#[inline(never)]
pub fn field_among(
    file: &[u8],
    sections: Sections,
    name: usize,
    first: usize,
    count: usize,
) -> Option<usize>
    requires { Laid file.now sections × (first + count ≤ sections.fields) }
    ensures { number_of result ≡ field_among (tables_of file.now sections) name first count }
{
    let Ok(narrow) = u16::try_from(name) else {
        return None;
    };
    for i in 0..count {
        if field_name(file, sections, first + i) as u16 == narrow {
            return Some(field_type(file, sections, first + i));
        }
    }
    None
}

// The type of the field `name` of the struct record `owner`; none where there is no such record.
pub fn field_of(file: &[u8], sections: Sections, owner: usize, name: usize) -> Option<usize>
    requires { GoodTables file.now sections }
    ensures { number_of result ≡ field_in (tables_of file.now sections) owner name }
{
    if sections.structs <= owner {
        return None;
    }
    let first = struct_first(file, sections, owner);
    let count = struct_count(file, sections, owner);
    field_among(file, sections, name, first, count)
}
