// The rules on fields, structs and built-ins (number 4).
ghost use Rattle.std.specs.Prelude.{◌≡◌};
ghost use Rattle.oat.specs.Basics.{all_below};
ghost use Rattle.oat.specs.TableRules.{field_rule, structs_right, has_kind, built_in_rule, tables_right};
ghost use Rattle.file_sections.specs.Layout.{Laid, tables_of};

use crate::types::lower_value;
use file_sections::Sections;
use file_sections::records::{built_in_type, field_type, struct_count, struct_first, type_kind};

// Every field has a type of the file that isn't void.
fn fields_right(file: &[u8], sections: Sections) -> bool
    requires { Laid file.now sections }
    ensures { result ≡ all_below sections.fields (field_rule (tables_of file.now sections)) }
{
    (0..sections.fields).all(|i| {
        let t = field_type(file, sections, i);
        lower_value(file, sections, sections.types, t)
    })
}

// Every struct begins where the one before ends, and the fields are used up.
fn structs_right(file: &[u8], sections: Sections) -> bool
    requires { Laid file.now sections }
    ensures { result ≡ structs_right (tables_of file.now sections) }
{
    let mut taken = 0;
    for i in 0..sections.structs {
        if struct_first(file, sections, i) != taken {
            return false;
        }
        taken += struct_count(file, sections, i);
    }
    taken == sections.fields
}

// The type t of the file is of the kind k.
#[tactic(auto, using(file_sections::proofs::LawsRecords::types_long), unfolding(oat::specs::TableRules::has_kind))]
pub fn has_kind(file: &[u8], sections: Sections, t: usize, k: usize) -> bool
    requires { Laid file.now sections }
    ensures { result ≡ has_kind (tables_of file.now sections) t k }
{
    t < sections.types && type_kind(file, sections, t) == k
}

// Every built-in has a function type.
fn built_ins_right(file: &[u8], sections: Sections) -> bool
    requires { Laid file.now sections }
    ensures { result ≡ all_below sections.built_ins (built_in_rule (tables_of file.now sections)) }
{
    (0..sections.built_ins).all(|i| has_kind(file, sections, built_in_type(file, sections, i), 6))
}

// The rules on fields, structs and built-ins.
#[tactic(auto, using(file_sections::proofs::LawsRecords::fields_long, file_sections::proofs::LawsRecords::built_ins_long), unfolding(oat::specs::TableRules::tables_right))]
pub fn tables_right(file: &[u8], sections: Sections) -> bool
    requires { Laid file.now sections }
    ensures { result ≡ tables_right (tables_of file.now sections) }
{
    fields_right(file, sections) && structs_right(file, sections) && built_ins_right(file, sections)
}
