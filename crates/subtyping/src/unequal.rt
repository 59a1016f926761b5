// The equality test of unequal types, with the count of the pairs that it compares (document 02, (viii)): equal pairs come whole, up to
// the first pair that is unequal, and the test goes down into that one. The sum of the two numbers falls. Kinds of types are numbers:
// document 01's form.
ghost use Rattle.std.specs.Prelude.{◌≡◌, false, ◌<◌, ◌≤◌, length};
ghost use Rattle.oat.specs.Types.{type_of};
ghost use Rattle.oat.specs.TypeRules.{kind_at};
ghost use Rattle.oat.specs.Decide.{same_ty};
ghost use Rattle.oat.specs.Pairs.{compare_same};
ghost use Rattle.file_sections.specs.Layout.{tables_of, GoodTables};
ghost use Rattle.type_index.specs.Index.{Indexed, Listed};
ghost use Rattle.subtyping.specs.Numbered.{operand_at, Differ};

use file_sections::Sections;
use file_sections::records::{list_entry, type_a, type_b, type_c, type_kind};
use type_index::parts::params_parts;
use type_index::same::same;

// How many of `count` parameters from the entries p and q of the type list on are equal before the first that are not.
fn first_unequal(
    file: &[u8],
    sections: Sections,
    index: &[u16],
    p: usize,
    q: usize,
    count: usize,
) -> usize
    requires { Listed file.now sections p count × Listed file.now sections q count × (2624 ≤ length index.now) }
    ensures { Differ index.now (tables_of file.now sections) p q count result }
{
    for j in 0..count {
        let x = list_entry(file, sections, p + j);
        let y = list_entry(file, sections, q + j);
        if !same(index, x, y) {
            return j;
        }
    }
    count
}

// The parameter j of the function type i, or its return type, which comes after them.
fn operand(file: &[u8], sections: Sections, i: usize, j: usize) -> usize
    requires { GoodTables file.now sections × (i < sections.types) × (kind_at (tables_of file.now sections) i ≡ 6) }
    ensures { result ≡ operand_at (tables_of file.now sections) i j }
{
    if j < type_c(file, sections, i) {
        return list_entry(file, sections, type_b(file, sections, i) + j);
    }
    type_a(file, sections, i)
}

// The pairs of two unequal function types: parameters come before return types.
#[cycle(unequal_unequal_functions)]
fn unequal_functions(file: &[u8], sections: Sections, index: &[u16], a: usize, b: usize) -> usize
    requires good_tables { GoodTables file.now sections × Indexed index.now (tables_of file.now sections) sections.types × (a < sections.types) × (b < sections.types) }
    requires b_value { same_ty (type_of (tables_of file.now sections) a) (type_of (tables_of file.now sections) b) ≡ false }
    requires a_value { (kind_at (tables_of file.now sections) a ≡ 6) × (kind_at (tables_of file.now sections) b ≡ 6) }
    ensures { result ≡ (compare_same (type_of (tables_of file.now sections) a) (type_of (tables_of file.now sections) b)).pairs }
{
    let count = type_c(file, sections, a);
    if count != type_c(file, sections, b) {
        return 1;
    }
    let p = type_b(file, sections, a);
    let q = type_b(file, sections, b);
    let j = first_unequal(file, sections, index, p, q, count);
    let equal = params_parts(file, sections, index, p, j);
    let x = operand(file, sections, a, j);
    let y = operand(file, sections, b, j);
    1 + equal + unequal(file, sections, index, x, y)
}

// The pairs of two unequal types.
#[cycle(unequal_unequal_functions)]
pub fn unequal(file: &[u8], sections: Sections, index: &[u16], a: usize, b: usize) -> usize
    requires good_tables { GoodTables file.now sections × Indexed index.now (tables_of file.now sections) sections.types × (a < sections.types) × (b < sections.types) }
    requires b_value { same_ty (type_of (tables_of file.now sections) a) (type_of (tables_of file.now sections) b) ≡ false }
    ensures { (result ≡ (compare_same (type_of (tables_of file.now sections) a) (type_of (tables_of file.now sections) b)).pairs) × (result < 400) }
{
    let kind = type_kind(file, sections, a);
    if kind != type_kind(file, sections, b) {
        return 1;
    }
    match kind {
        5 | 7 => 1
            + unequal(
                file,
                sections,
                index,
                type_a(file, sections, a),
                type_a(file, sections, b),
            ),
        6 => unequal_functions(file, sections, index, a, b),
        _ => 1,
    }
}
