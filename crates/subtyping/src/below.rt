// Subtyping on type numbers of an indexed file, with the count of the pairs of types that are compared (document 02, (viii)). The sum of
// the two numbers falls. Kinds of types are numbers: document 01's form.
ghost use Rattle.std.specs.Prelude.{◌≡◌, ◌+◌, ◌*◌, ◌<◌, ◌≤◌};
ghost use Rattle.oat.specs.Tables.{type_at};
ghost use Rattle.oat.specs.TypeRules.{parts_at};
ghost use Rattle.oat.specs.Types.{type_of, struct_of};
ghost use Rattle.oat.specs.Decide;
ghost use Rattle.oat.specs.Pairs.{below_pairs};
ghost use Rattle.file_sections.specs.Layout.{tables_of, GoodTables};
ghost use Rattle.type_index.specs.Index.{declared, Entered, Indexed};
ghost use Rattle.subtyping.specs.Numbered.{same_field, same_fields, is_itself, compare_at, compare_params, compare_functions, same_at, Params, Matches};

use crate::unequal::unequal;
use file_sections::Sections;
use file_sections::records::{
    field_name, field_type, list_entry, struct_count, struct_first, type_a, type_b, type_c,
    type_kind,
};
use type_index::formed::{is_formed, struct_record};
use type_index::parts::parts_of;
use type_index::same::same;

// How a comparison went: whether it holds, and how many pairs it compared. A struct and no Option, since the pairs count either way.
#[derive(Clone, Copy)]
pub struct Compared {
    pub holds: bool,
    pub pairs: usize,
}

impl Compared {
    // The comparison, with the `pairs` pairs before it.
    pub fn after(self, pairs: usize) -> Compared
        requires { pairs + self.pairs ≤ usize.MAX }
        ensures { result ≡ record { holds = self.holds; pairs = pairs + self.pairs } }
    {
        Compared {
            holds: self.holds,
            pairs: pairs + self.pairs,
        }
    }
}

// A pair that leads to no other.
fn one_pair(holds: bool) -> Compared
    ensures { result ≡ record { holds = holds; pairs = 1 } }
{
    Compared { holds, pairs: 1 }
}

// The fields i and j have the same name and the same type.
fn same_field(file: &[u8], sections: Sections, index: &[u16], i: usize, j: usize) -> bool
    requires { GoodTables file.now sections × Indexed index.now (tables_of file.now sections) sections.types × (i < sections.fields) × (j < sections.fields) }
    ensures { result ≡ same_field (tables_of file.now sections) i j }
{
    field_name(file, sections, i) == field_name(file, sections, j)
        && same(
            index,
            field_type(file, sections, i),
            field_type(file, sections, j),
        )
}

// `count` fields from p on are those from q on.
fn same_fields(
    file: &[u8],
    sections: Sections,
    index: &[u16],
    p: usize,
    q: usize,
    count: usize,
) -> bool
    requires { GoodTables file.now sections × Indexed index.now (tables_of file.now sections) sections.types × (p + count ≤ sections.fields) × (q + count ≤ sections.fields) }
    ensures { result ≡ same_fields (tables_of file.now sections) p q count }
{
    for j in 0..count {
        if !same_field(file, sections, index, p + j, q + j) {
            return false;
        }
    }
    true
}

// The fields of the struct j begin those of the struct i.
fn begins(file: &[u8], sections: Sections, index: &[u16], i: usize, j: usize) -> bool
    requires { GoodTables file.now sections × Indexed index.now (tables_of file.now sections) sections.types × (i < sections.structs) × (j < sections.structs) }
    ensures { result ≡ Decide.begins_with (struct_of (tables_of file.now sections) i).fields (struct_of (tables_of file.now sections) j).fields }
{
    let count = struct_count(file, sections, j);
    count <= struct_count(file, sections, i)
        && same_fields(
            file,
            sections,
            index,
            struct_first(file, sections, i),
            struct_first(file, sections, j),
            count,
        )
}

// Both structs are declared, and the fields of the second begin those of the first.
fn struct_below(file: &[u8], sections: Sections, index: &[u16], a: usize, b: usize) -> bool
    requires { GoodTables file.now sections × Indexed index.now (tables_of file.now sections) sections.types × (a < sections.types) × (b < sections.types) × ((type_at (tables_of file.now sections) a).kind ≡ 4) × ((type_at (tables_of file.now sections) b).kind ≡ 4) }
    ensures { result ≡ Decide.struct_below (declared (tables_of file.now sections)) (type_at (tables_of file.now sections) a).a (type_at (tables_of file.now sections) b).a }
{
    let first = struct_record(index, a);
    let second = struct_record(index, b);
    first < sections.structs
        && second < sections.structs
        && begins(file, sections, index, first, second)
}

// The equality test of the types a and b: of equal ones it compares all parts.
fn equal(file: &[u8], sections: Sections, index: &[u16], a: usize, b: usize) -> Compared
    requires { GoodTables file.now sections × Indexed index.now (tables_of file.now sections) sections.types × (a < sections.types) × (b < sections.types) }
    ensures { Matches result (same_at (tables_of file.now sections) a b) × (result.pairs < 400) }
{
    if same(index, a, b) {
        return Compared {
            holds: true,
            pairs: parts_of(index, a),
        };
    }
    Compared {
        holds: false,
        pairs: unequal(file, sections, index, a, b),
    }
}

// Two function types: parameters turn round, and come before return types.
#[cycle(below_by_kinds_function_below_kind_below_params_below)]
fn function_below(file: &[u8], sections: Sections, index: &[u16], a: usize, b: usize) -> Compared
    requires { GoodTables file.now sections × Indexed index.now (tables_of file.now sections) sections.types × (a < sections.types) × (b < sections.types) × ((type_at (tables_of file.now sections) a).kind ≡ 6) × ((type_at (tables_of file.now sections) b).kind ≡ 6) }
    ensures { Matches result (compare_functions (tables_of file.now sections) a b) }
{
    let count = type_c(file, sections, a);
    if count != type_c(file, sections, b) {
        return one_pair(false);
    }
    let params = params_below(
        file,
        sections,
        index,
        b,
        a,
        type_b(file, sections, b),
        type_b(file, sections, a),
        count,
    );
    if !params.holds {
        return params.after(1);
    }
    let returns = below(
        file,
        sections,
        index,
        type_a(file, sections, a),
        type_a(file, sections, b),
    );
    returns.after(1 + params.pairs)
}

// `count` parameters of a, from the entry p on, against those of b, from q on, one by one, up to the first that is not below. (A function of its
// own: as part of `below` a question on the deepest types took 1.35 times the stack.)
#[cycle(below_by_kinds_function_below_kind_below_params_below)]
#[inline(never)]
fn params_below(
    file: &[u8],
    sections: Sections,
    index: &[u16],
    a: usize,
    b: usize,
    p: usize,
    q: usize,
    count: usize,
) -> Compared
    requires { GoodTables file.now sections × Indexed index.now (tables_of file.now sections) sections.types × (a < sections.types) × (b < sections.types) × Params file.now sections a p count × Params file.now sections b q count }
    ensures { Matches result (compare_params (tables_of file.now sections) p q count) × (result.pairs ≤ 400 * count) }
{
    let mut pairs = 0;
    for j in 0..count {
        let compared = below(
            file,
            sections,
            index,
            list_entry(file, sections, p + j),
            list_entry(file, sections, q + j),
        );
        pairs += compared.pairs;
        if !compared.holds {
            return Compared {
                holds: false,
                pairs,
            };
        }
    }
    Compared { holds: true, pairs }
}

// Two types of one kind.
#[cycle(below_by_kinds_function_below_kind_below_params_below)]
fn kind_below(
    file: &[u8],
    sections: Sections,
    index: &[u16],
    kind: usize,
    a: usize,
    b: usize,
) -> Compared
    requires { GoodTables file.now sections × Indexed index.now (tables_of file.now sections) sections.types × (a < sections.types) × (b < sections.types) × (kind ≡ (type_at (tables_of file.now sections) a).kind) × (kind ≡ (type_at (tables_of file.now sections) b).kind) }
    ensures { Matches result (compare_at (tables_of file.now sections) a b) }
{
    match kind {
        4 => one_pair(struct_below(file, sections, index, a, b)),
        5 => {
            let elements = equal(
                file,
                sections,
                index,
                type_a(file, sections, a),
                type_a(file, sections, b),
            );
            elements.after(1)
        }
        6 => function_below(file, sections, index, a, b),
        7 => {
            let references = below(
                file,
                sections,
                index,
                type_a(file, sections, a),
                type_a(file, sections, b),
            );
            references.after(1)
        }
        _ => one_pair(true),
    }
}

// The types a and b, by their kinds: a reference goes on with what a nullable type refers to.
#[cycle(below_by_kinds_function_below_kind_below_params_below)]
fn by_kinds(file: &[u8], sections: Sections, index: &[u16], a: usize, b: usize) -> Compared
    requires { GoodTables file.now sections × Indexed index.now (tables_of file.now sections) sections.types × (a < sections.types) × (b < sections.types) }
    ensures { Matches result (compare_at (tables_of file.now sections) a b) }
{
    let kind = type_kind(file, sections, a);
    let other = type_kind(file, sections, b);
    if kind == other {
        return kind_below(file, sections, index, kind, a, b);
    }
    if other != 7 {
        return one_pair(false);
    }
    match kind {
        2 | 4..=6 => below(file, sections, index, a, type_a(file, sections, b)).after(1),
        _ => one_pair(false),
    }
}

// The types a and b are equal and well-formed: a well-formed type is below itself.
fn is_itself(index: &[u16], a: usize, b: usize) -> bool
    requires { Entered index.now a × Entered index.now b }
    ensures { result ≡ is_itself index.now a b }
{
    same(index, a, b) && is_formed(index, a)
}

// The type a is below the type b, as return types, and how many pairs of types that compares: fewer than both types have parts. Most
// are equal and well-formed, and are answered here, since all their parts are compared: a call further on copies much.
#[cycle(below_by_kinds_function_below_kind_below_params_below)]
pub fn below(file: &[u8], sections: Sections, index: &[u16], a: usize, b: usize) -> Compared
    requires { GoodTables file.now sections × Indexed index.now (tables_of file.now sections) sections.types × (a < sections.types) × (b < sections.types) }
    ensures holds_value { (result.holds ≡ Decide.below (declared (tables_of file.now sections)) (type_of (tables_of file.now sections) a) (type_of (tables_of file.now sections) b)) × (result.pairs ≡ below_pairs (declared (tables_of file.now sections)) (type_of (tables_of file.now sections) a) (type_of (tables_of file.now sections) b)) }
    ensures pairs_bound { (result.pairs + 1 ≤ parts_at (tables_of file.now sections) a + parts_at (tables_of file.now sections) b) × (result.pairs < 400) }
{
    if is_itself(index, a, b) {
        return Compared {
            holds: true,
            pairs: parts_of(index, a),
        };
    }
    by_kinds(file, sections, index, a, b)
}
