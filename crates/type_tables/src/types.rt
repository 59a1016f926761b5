// The rules on types and the type list (number 3). Kinds are document 01's numbers (0 int, 1 bool, 2 string, 3 void, 4 struct, 5 array, 6 function,
// 7 nullable), and an enum would be no plainer: a file's kind is any number of 16 bits, and it is these rules that refuse the others.
ghost use Rattle.std.specs.Prelude.{◌≡◌, ◌+◌, ◌*◌, ◌<◌, ◌≤◌, length, IfSome};
ghost use Rattle.oat.specs.Basics.{pick};
ghost use Rattle.oat.specs.Tables.{type_at};
ghost use Rattle.oat.specs.TypeRules.{is_lower_value, is_reference_kind, param_count, taken_before, unused_bc, base_rule, array_rule, params_right, function_rule, nullable_rule, type_rule, parts_at, each_type_right, types_right};
ghost use Rattle.file_sections.specs.Layout.{Laid, Has, tables_of};
ghost use Rattle.type_tables.specs.Parts.{Measured, param_parts};

use file_sections::Sections;
use file_sections::records::{list_entry, type_a, type_b, type_c, type_kind};

// The type j is lower than i, and it isn't void.
#[tactic(auto, unfolding(oat::specs::TypeRules::is_lower_value))]
pub fn lower_value(file: &[u8], sections: Sections, i: usize, j: usize) -> bool
    requires { Laid file.now sections × (i ≤ sections.types) }
    ensures { result ≡ is_lower_value (tables_of file.now sections) i j }
{
    j < i && type_kind(file, sections, j) != 3
}

// The kinds that a nullable may hold.
#[tactic(auto, unfolding(oat::specs::TypeRules::is_reference_kind))]
pub fn reference_kind(kind: usize) -> bool
    ensures { result ≡ is_reference_kind kind }
{
    matches!(kind, 2 | 4..=6)
}

// How many entries of the type list the type i takes: a function's parameters.
#[tactic(auto, unfolding(oat::specs::TypeRules::param_count))]
pub fn param_count(file: &[u8], sections: Sections, i: usize) -> usize
    requires { Has file.now sections i sections.types }
    ensures { (result ≡ param_count (type_at (tables_of file.now sections) i)) × (result < 65536) }
{
    if type_kind(file, sections, i) == 6 {
        type_c(file, sections, i)
    } else {
        0
    }
}

// b and c of the type i are 0.
#[tactic(auto, unfolding(oat::specs::TypeRules::unused_bc))]
fn unused(file: &[u8], sections: Sections, i: usize) -> bool
    requires { Has file.now sections i sections.types }
    ensures { result ≡ unused_bc (type_at (tables_of file.now sections) i) }
{
    type_b(file, sections, i) == 0 && type_c(file, sections, i) == 0
}

// The rule of the types 0 to 3.
#[tactic(auto, unfolding(oat::specs::TypeRules::base_rule))]
fn base_right(file: &[u8], sections: Sections, i: usize) -> bool
    requires { Has file.now sections i sections.types }
    ensures { result ≡ base_rule i (type_at (tables_of file.now sections) i) }
{
    type_kind(file, sections, i) == i && type_a(file, sections, i) == 0 && unused(file, sections, i)
}

// The parts of the array type i, or none where it breaks its rule.
#[tactic(auto, using(crate::proofs::LawsParts::array_parts), unfolding(oat::specs::TypeRules::array_rule, oat::specs::TypeRules::is_lower_value))]
fn array_parts(file: &[u8], sections: Sections, parts: &[u16], i: usize) -> Option<usize>
    requires has { Has file.now sections i sections.types × Measured parts.now (tables_of file.now sections) i }
    requires i_value { (type_at (tables_of file.now sections) i).kind ≡ 5 }
    ensures { result ≡ pick (array_rule (tables_of file.now sections) i (type_at (tables_of file.now sections) i)) (Some (parts_at (tables_of file.now sections) i)) None }
{
    let a = type_a(file, sections, i);
    if lower_value(file, sections, i, a) && unused(file, sections, i) {
        Some(1 + usize::from(parts[a]))
    } else {
        None
    }
}

// The parts of the nullable type i, or none where it breaks its rule.
#[tactic(auto, using(crate::proofs::LawsParts::nullable_parts), unfolding(oat::specs::TypeRules::nullable_rule))]
fn nullable_parts(file: &[u8], sections: Sections, parts: &[u16], i: usize) -> Option<usize>
    requires has { Has file.now sections i sections.types × Measured parts.now (tables_of file.now sections) i }
    requires i_value { (type_at (tables_of file.now sections) i).kind ≡ 7 }
    ensures { result ≡ pick (nullable_rule (tables_of file.now sections) i (type_at (tables_of file.now sections) i)) (Some (parts_at (tables_of file.now sections) i)) None }
{
    let a = type_a(file, sections, i);
    if a < i && reference_kind(type_kind(file, sections, a)) && unused(file, sections, i) {
        Some(1 + usize::from(parts[a]))
    } else {
        None
    }
}

// The parts of `count` parameters of the type i that begin at the entry `first`, or none where one is void or isn't a lower type.
#[tactic(auto, using(oat::proofs::LawsBasics::sum_more, oat::proofs::LawsBasics::all_more, crate::proofs::LawsParts::lower_below), unfolding(oat::specs::TypeRules::params_right, crate::specs::Parts::param_parts))]
fn params_parts(
    file: &[u8],
    sections: Sections,
    parts: &[u16],
    i: usize,
    first: usize,
    count: usize,
) -> Option<usize>
    requires { Has file.now sections i sections.types × Measured parts.now (tables_of file.now sections) i × (first + count ≤ sections.list) }
    ensures value { result ≡ pick (params_right (tables_of file.now sections) i first count) (Some (param_parts parts.now (tables_of file.now sections) first count)) None }
    ensures upper_bound { IfSome result (λ sum. sum ≤ 65535 * count) }
{
    let mut sum = 0;
    for j in 0..count {
        let param = list_entry(file, sections, first + j);
        if !lower_value(file, sections, i, param) {
            return None;
        }
        sum += usize::from(parts[param]);
    }
    Some(sum)
}

// The parts of the function type i, whose parameters begin at the entry `taken` of the type list, or none where it breaks its rule.
#[tactic(auto, using(crate::proofs::LawsParts::function_parts, file_sections::proofs::LawsRecords::list_long), unfolding(oat::specs::TypeRules::function_rule))]
fn function_parts(
    file: &[u8],
    sections: Sections,
    parts: &[u16],
    i: usize,
    taken: usize,
) -> Option<usize>
    requires has { Has file.now sections i sections.types × (taken ≡ taken_before (tables_of file.now sections) i) }
    requires measured { Measured parts.now (tables_of file.now sections) i × ((type_at (tables_of file.now sections) i).kind ≡ 6) }
    ensures { result ≡ pick (function_rule (tables_of file.now sections) i (type_at (tables_of file.now sections) i)) (Some (parts_at (tables_of file.now sections) i)) None }
{
    let a = type_a(file, sections, i);
    let first = type_b(file, sections, i);
    let count = type_c(file, sections, i);
    if i <= a || first != taken || sections.list < first + count {
        return None;
    }
    let sum = params_parts(file, sections, parts, i, first, count)?;
    Some(1 + sum + usize::from(parts[a]))
}

// The parts of the type i, from those of lower types, or none where it breaks its rule.
#[tactic(auto, using(crate::proofs::LawsParts::leaf_parts), unfolding(oat::specs::TypeRules::type_rule, oat::specs::TypeRules::base_rule))]
fn type_parts(
    file: &[u8],
    sections: Sections,
    parts: &[u16],
    i: usize,
    taken: usize,
) -> Option<usize>
    requires has { Has file.now sections i sections.types × (taken ≡ taken_before (tables_of file.now sections) i) }
    requires measured { Measured parts.now (tables_of file.now sections) i }
    ensures { result ≡ pick (type_rule (tables_of file.now sections) i (type_at (tables_of file.now sections) i)) (Some (parts_at (tables_of file.now sections) i)) None }
{
    if i < 4 {
        return base_right(file, sections, i).then_some(1);
    }
    match type_kind(file, sections, i) {
        4 => unused(file, sections, i).then_some(1),
        5 => array_parts(file, sections, parts, i),
        6 => function_parts(file, sections, parts, i, taken),
        7 => nullable_parts(file, sections, parts, i),
        _ => None,
    }
}

// Every type keeps its rule and has at most `most` parts, and the type list is used up; `parts` is filled.
fn each_type(file: &[u8], sections: Sections, parts: &mut [u16], most: usize) -> bool
    requires { Laid file.now sections × (most ≤ 200) × (512 ≤ length parts.old) }
    ensures { result ≡ each_type_right most (tables_of file.now sections) }
{
    let mut taken = 0;
    for i in 0..sections.types {
        let Some(own) = type_parts(file, sections, parts, i, taken) else {
            return false;
        };
        if most < own {
            return false;
        }
        parts[i] = own as u16;
        taken += param_count(file, sections, i);
    }
    taken == sections.list
}

// The rules on types and the type list.
#[tactic(auto, using(file_sections::proofs::LawsRecords::types_long), unfolding(oat::specs::TypeRules::types_right))]
pub fn types_right(file: &[u8], sections: Sections, most: usize) -> bool
    requires { Laid file.now sections × (most ≤ 200) }
    ensures { result ≡ types_right most (tables_of file.now sections) }
{
    if sections.types < 4 {
        return false;
    }
    let mut parts = [0u16; 512];
    each_type(file, sections, &mut parts, most)
}
