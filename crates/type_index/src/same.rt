// Equal types under their lowest number. The entry i of the index is the lowest number of a type equal to the type i. It is found by a
// walk along a chain, from the head at 2048 + bucket over the links at 1536 + j, since equal types have equal buckets: with one test
// for struct types, one for holders, which are array and nullable types, and one for function types.
ghost use Rattle.std.specs.Prelude.{◌≡◌, ◌⊎◌, ◌<◌, ◌≤◌, eqb, length};
ghost use Rattle.oat.specs.Tables.{type_at};
ghost use Rattle.oat.specs.TypeRules.{kind_at};
ghost use Rattle.oat.specs.Types.{type_of};
ghost use Rattle.oat.specs.Decide.{same_ty};
ghost use Rattle.file_sections.specs.Layout.{Laid, tables_of, GoodTables};
ghost use Rattle.type_index.specs.Index.{first_below, lowest_entry, same_params, bucket_of, Chained, Entered, Indexed, Listed, Operand, Parameters};

use crate::entries::entry;
use crate::walk::last_where;
use file_sections::Sections;
use file_sections::records::{list_entry, type_a, type_b, type_c, type_kind};

// The lowest number of a type equal to the type i.
#[tactic(auto, unfolding(crate::specs::Index::lowest_entry))]
pub fn lowest(index: &[u16], i: usize) -> usize
    requires { Entered index.now i }
    ensures { result ≡ lowest_entry index.now i }
{
    entry(index, i)
}

// The index has the same lowest number for a and b: where both are indexed, these types are equal as written out.
pub fn same(index: &[u16], a: usize, b: usize) -> bool
    requires { Entered index.now a × Entered index.now b }
    ensures { result ≡ eqb (lowest_entry index.now a) (lowest_entry index.now b) }
{
    lowest(index, a) == lowest(index, b)
}

// `count` parameters from the entries p and q of the type list on are equal, one by one.
fn same_params(
    file: &[u8],
    sections: Sections,
    index: &[u16],
    p: usize,
    q: usize,
    count: usize,
) -> bool
    requires { Listed file.now sections p count × Listed file.now sections q count × (2624 ≤ length index.now) }
    ensures { result ≡ same_params index.now (tables_of file.now sections) p q count }
{
    (0..count).all(|j| same(
        index,
        list_entry(file, sections, p + j),
        list_entry(file, sections, q + j),
    ))
}

// The `count` parameters of two function types are equal, one by one.
fn same_parameters(
    file: &[u8],
    sections: Sections,
    index: &[u16],
    a: usize,
    b: usize,
    count: usize,
) -> bool
    requires { Parameters file.now sections a count × Parameters file.now sections b count × (2624 ≤ length index.now) }
    ensures { result ≡ same_params index.now (tables_of file.now sections) (type_at (tables_of file.now sections) a).b (type_at (tables_of file.now sections) b).b count }
{
    let p = type_b(file, sections, a);
    let q = type_b(file, sections, b);
    same_params(file, sections, index, p, q, count)
}

// The types that two types have for their operand a are equal: elements, references or return types.
fn same_operands(file: &[u8], sections: Sections, index: &[u16], a: usize, b: usize) -> bool
    requires { Laid file.now sections × Operand file.now sections index.now a × Operand file.now sections index.now b }
    ensures { result ≡ eqb (lowest_entry index.now (type_at (tables_of file.now sections) a).a) (lowest_entry index.now (type_at (tables_of file.now sections) b).a) }
{
    same(index, type_a(file, sections, a), type_a(file, sections, b))
}

// Two function types are equal, where lower types are indexed.
fn same_signatures(file: &[u8], sections: Sections, index: &[u16], a: usize, b: usize) -> bool
    requires good_tables { GoodTables file.now sections × (a < b) × (b < sections.types) × Indexed index.now (tables_of file.now sections) b }
    requires a_value { (kind_at (tables_of file.now sections) a ≡ 6) × (kind_at (tables_of file.now sections) b ≡ 6) }
    ensures { result ≡ same_ty (type_of (tables_of file.now sections) a) (type_of (tables_of file.now sections) b) }
{
    let count = type_c(file, sections, a);
    count == type_c(file, sections, b)
        && same_parameters(file, sections, index, a, b, count)
        && same_operands(file, sections, index, a, b)
}

// Two types are equal, the second a struct type.
fn same_struct(file: &[u8], sections: Sections, a: usize, b: usize) -> bool
    requires good_tables { GoodTables file.now sections × (a < b) × (b < sections.types) }
    requires b_value { kind_at (tables_of file.now sections) b ≡ 4 }
    ensures { result ≡ same_ty (type_of (tables_of file.now sections) a) (type_of (tables_of file.now sections) b) }
{
    type_kind(file, sections, a) == 4 && type_a(file, sections, a) == type_a(file, sections, b)
}

// Two types are equal, the second a holder of this kind, where lower types are indexed.
fn same_holder(
    file: &[u8],
    sections: Sections,
    index: &[u16],
    a: usize,
    b: usize,
    kind: usize,
) -> bool
    requires good_tables { GoodTables file.now sections × (a < b) × (b < sections.types) × Indexed index.now (tables_of file.now sections) b }
    requires b_value { (kind_at (tables_of file.now sections) b ≡ kind) × ((kind ≡ 5) ⊎ (kind ≡ 7)) }
    ensures { result ≡ same_ty (type_of (tables_of file.now sections) a) (type_of (tables_of file.now sections) b) }
{
    type_kind(file, sections, a) == kind && same_operands(file, sections, index, a, b)
}

// Two types are equal, the second a function type, where lower types are indexed.
fn same_function(file: &[u8], sections: Sections, index: &[u16], a: usize, b: usize) -> bool
    requires good_tables { GoodTables file.now sections × (a < b) × (b < sections.types) × Indexed index.now (tables_of file.now sections) b }
    requires b_value { kind_at (tables_of file.now sections) b ≡ 6 }
    ensures { result ≡ same_ty (type_of (tables_of file.now sections) a) (type_of (tables_of file.now sections) b) }
{
    type_kind(file, sections, a) == 6 && same_signatures(file, sections, index, a, b)
}

// The lowest number of a type equal to the struct type i, where lower types are indexed and chained, and i belongs to the bucket.
pub fn lowest_struct(
    file: &[u8],
    sections: Sections,
    index: &[u16],
    i: usize,
    bucket: usize,
) -> usize
    requires good_tables { GoodTables file.now sections × (i < sections.types) × Indexed index.now (tables_of file.now sections) i }
    requires chained { Chained index.now (tables_of file.now sections) i × (bucket ≡ bucket_of (tables_of file.now sections) i) × (bucket < 64) }
    requires i_value { kind_at (tables_of file.now sections) i ≡ 4 }
    ensures { result ≡ first_below i (λ j. same_ty (type_of (tables_of file.now sections) j) (type_of (tables_of file.now sections) i)) }
{
    match last_where(
        index,
        2048 + bucket,
        1536,
        |j| same_struct(file, sections, j, i),
    ) {
        Some(j) => entry(index, j),
        None => i,
    }
}

// The lowest number of a type equal to the holder i, of this kind, where lower types are indexed and chained, and i belongs to the bucket.
pub fn lowest_holder(
    file: &[u8],
    sections: Sections,
    index: &[u16],
    i: usize,
    kind: usize,
    bucket: usize,
) -> usize
    requires good_tables { GoodTables file.now sections × (i < sections.types) × Indexed index.now (tables_of file.now sections) i }
    requires chained { Chained index.now (tables_of file.now sections) i × (bucket ≡ bucket_of (tables_of file.now sections) i) × (bucket < 64) }
    requires i_value { (kind_at (tables_of file.now sections) i ≡ kind) × ((kind ≡ 5) ⊎ (kind ≡ 7)) }
    ensures { result ≡ first_below i (λ j. same_ty (type_of (tables_of file.now sections) j) (type_of (tables_of file.now sections) i)) }
{
    match last_where(
        index,
        2048 + bucket,
        1536,
        |j| same_holder(file, sections, index, j, i, kind),
    ) {
        Some(j) => entry(index, j),
        None => i,
    }
}

// The bucket of the function type i, by its return type and its number of parameters, where lower types are indexed.
pub fn function_bucket(file: &[u8], sections: Sections, index: &[u16], i: usize) -> usize
    requires good_tables { GoodTables file.now sections × (i < sections.types) × Indexed index.now (tables_of file.now sections) i }
    requires i_value { kind_at (tables_of file.now sections) i ≡ 6 }
    ensures { (result ≡ bucket_of (tables_of file.now sections) i) × (result < 64) }
{
    let first = entry(index, type_a(file, sections, i));
    (first + 6 + type_c(file, sections, i) * 8) % 64
}

// The lowest number of a type equal to the function type i, where lower types are indexed and chained, and i belongs to the bucket.
pub fn lowest_function(
    file: &[u8],
    sections: Sections,
    index: &[u16],
    i: usize,
    bucket: usize,
) -> usize
    requires good_tables { GoodTables file.now sections × (i < sections.types) × Indexed index.now (tables_of file.now sections) i }
    requires chained { Chained index.now (tables_of file.now sections) i × (bucket ≡ bucket_of (tables_of file.now sections) i) × (bucket < 64) }
    requires i_value { kind_at (tables_of file.now sections) i ≡ 6 }
    ensures { result ≡ first_below i (λ j. same_ty (type_of (tables_of file.now sections) j) (type_of (tables_of file.now sections) i)) }
{
    match last_where(
        index,
        2048 + bucket,
        1536,
        |j| same_function(file, sections, index, j, i),
    ) {
        Some(j) => entry(index, j),
        None => i,
    }
}
