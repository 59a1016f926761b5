// The names of a struct literal: every field once, in any order. Names are compared where they stand in the file. With as many
// initializers as fields it is enough that fields are distinct and each of them is named.
ghost use Rattle.std.specs.Prelude.{◌≡◌, ◌+◌, ◌<◌};
ghost use Rattle.oat.specs.Tables.{node_at, struct_at};
ghost use Rattle.oat.specs.Types.{struct_of};
ghost use Rattle.typing_rules.specs.Rules.{names_fit};
ghost use Rattle.file_sections.specs.Layout.{tables_of, GoodTables};
ghost use Rattle.fields.specs.Literal.{is_named, all_named, Initializers, OfInitializers};

use crate::distinct::are_distinct;
use file_sections::Sections;
use file_sections::records::{field_name, node_children, node_x, struct_count, struct_first};
use file_sections::trees::past;

// One of `count` initializers, the first at `node`, has the name.
fn is_named(file: &[u8], sections: Sections, node: usize, count: usize, name: usize) -> bool
    requires { Initializers file.now sections node count }
    ensures { OfInitializers file.now sections node count (λ is. result ≡ is_named name is) }
{
    let mut at = node;
    for _passed in 0..count {
        if node_x(file, sections, at) == name {
            return true;
        }
        at = past(file, sections, at + 1);
    }
    false
}

// Each of the `count` fields of the struct record `owner` is named by one of as many initializers, the first at `node`: by that in its
// own place, or by another.
fn all_named(file: &[u8], sections: Sections, node: usize, count: usize, owner: usize) -> bool
    requires { GoodTables file.now sections × (owner < sections.structs) × (count ≡ (struct_at (tables_of file.now sections) owner).count) × Initializers file.now sections node count }
    ensures { OfInitializers file.now sections node count (λ is. result ≡ all_named (struct_of (tables_of file.now sections) owner).fields is) }
{
    let first = struct_first(file, sections, owner);
    let mut at = node;
    for i in 0..count {
        let name = field_name(file, sections, first + i);
        if node_x(file, sections, at) != name && !is_named(file, sections, node, count, name) {
            return false;
        }
        at = past(file, sections, at + 1);
    }
    true
}

// The literal at `node` names every field of the struct record `owner` once.
pub fn names_fit(file: &[u8], sections: Sections, node: usize, owner: usize) -> bool
    requires { GoodTables file.now sections × (node < sections.nodes) × (owner < sections.structs) × Initializers file.now sections (node + 1) (node_at (tables_of file.now sections) node).children }
    ensures { OfInitializers file.now sections (node + 1) (node_at (tables_of file.now sections) node).children (λ is. result ≡ names_fit (struct_of (tables_of file.now sections) owner).fields is) }
{
    let count = node_children(file, sections, node);
    count == struct_count(file, sections, owner)
        && are_distinct(file, sections, owner)
        && all_named(file, sections, node + 1, count, owner)
}
