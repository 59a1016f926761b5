// The index of a file's types: five numbers for each type i, at i, 512 + i, 1024 + i, 1536 + i and 2112 + i, and from 2048 on the heads
// of 64 chains. A chain leads from its head through the types of one bucket, the latest first: the head, and the number 1536 + j of each type
// j on it, is one higher than the type that it leads to, 0 for none.
ghost use Rattle.std.specs.Prelude.{◌≡◌, ◌⊎◌, ◌+◌, ◌<◌, ◌≤◌, length};
ghost use Rattle.oat.specs.TypeRules.{kind_at};
ghost use Rattle.file_sections.specs.Layout.{tables_of, GoodTables};
ghost use Rattle.type_index.specs.Index.{linking, entering, Chained, Cleared, Indexed};
ghost use Rattle.type_index.specs.Records.{Recorded};

use crate::entries::entry;
use crate::formed::{function_formed, is_formed};
use crate::parts::{function_parts, parts_of};
use crate::records::{chain_records, record_of};
use crate::same::{function_bucket, lowest_function, lowest_holder, lowest_struct};
use file_sections::Sections;
use file_sections::records::{type_a, type_kind};

// Puts the type i first in its chain.
fn link(index: &mut [u16], i: usize, bucket: usize)
    requires { (2624 ≤ length index.old) × (i < 512) × (bucket < 64) }
    ensures { index.new ≡ linking index.old i bucket }
{
    chains::link(index, 2048 + bucket, 1536 + i, i + 1);
}

// Stores the four entries of the type i and puts it first in its chain.
fn enter(
    index: &mut [u16],
    i: usize,
    lowest: usize,
    named: usize,
    formed: bool,
    parts: usize,
    bucket: usize,
)
    requires { (2624 ≤ length index.old) × (i < 512) × (lowest < 65536) × (named < 65536) × (parts < 65536) × (bucket < 64) }
    ensures { index.new ≡ entering index.old i lowest named formed parts bucket }
{
    index[i] = lowest as u16;
    index[512 + i] = named as u16;
    index[1024 + i] = u16::from(formed);
    index[2112 + i] = parts as u16;
    link(index, i, bucket);
}

// The entries of the struct type i and its place in its chain, where lower types are indexed and the struct records are chained.
fn index_struct(file: &[u8], sections: Sections, records: &[u16], index: &mut [u16], i: usize)
    requires recorded { Recorded records.now (tables_of file.now sections) sections.structs }
    requires good_tables { GoodTables file.now sections × (i < sections.types) × Indexed index.old (tables_of file.now sections) i }
    requires chained { Chained index.old (tables_of file.now sections) i }
    requires i_value { kind_at (tables_of file.now sections) i ≡ 4 }
    ensures indexed { Indexed index.new (tables_of file.now sections) (i + 1) }
    ensures chained_2 { Chained index.new (tables_of file.now sections) (i + 1) }
{
    let name = type_a(file, sections, i);
    let bucket = name % 64;
    let lowest = lowest_struct(file, sections, &*index, i, bucket);
    let named = record_of(file, sections, records, name);
    enter(index, i, lowest, named, named < sections.structs, 1, bucket);
}

// The entries of the array or nullable type i, of this kind, and its place in its chain, where lower types are indexed.
fn index_holder(file: &[u8], sections: Sections, index: &mut [u16], i: usize, kind: usize)
    requires good_tables { GoodTables file.now sections × (i < sections.types) × Indexed index.old (tables_of file.now sections) i }
    requires chained { Chained index.old (tables_of file.now sections) i }
    requires i_value { (kind_at (tables_of file.now sections) i ≡ kind) × ((kind ≡ 5) ⊎ (kind ≡ 7)) }
    ensures indexed { Indexed index.new (tables_of file.now sections) (i + 1) }
    ensures chained_2 { Chained index.new (tables_of file.now sections) (i + 1) }
{
    let a = type_a(file, sections, i);
    let first = entry(&*index, a);
    let bucket = (first + kind) % 64;
    let lowest = lowest_holder(file, sections, &*index, i, kind, bucket);
    let formed = is_formed(&*index, a);
    let parts = 1 + parts_of(&*index, a);
    enter(index, i, lowest, sections.structs, formed, parts, bucket);
}

// The entries of the function type i and its place in its chain, where lower types are indexed.
fn index_function(file: &[u8], sections: Sections, index: &mut [u16], i: usize)
    requires good_tables { GoodTables file.now sections × (i < sections.types) × Indexed index.old (tables_of file.now sections) i }
    requires chained { Chained index.old (tables_of file.now sections) i }
    requires i_value { kind_at (tables_of file.now sections) i ≡ 6 }
    ensures indexed { Indexed index.new (tables_of file.now sections) (i + 1) }
    ensures chained_2 { Chained index.new (tables_of file.now sections) (i + 1) }
{
    let bucket = function_bucket(file, sections, &*index, i);
    let lowest = lowest_function(file, sections, &*index, i, bucket);
    let formed = function_formed(file, sections, &*index, i);
    let parts = function_parts(file, sections, &*index, i);
    enter(index, i, lowest, sections.structs, formed, parts, bucket);
}

// The entries of the type i and its place in its chain, where lower types are indexed and the struct records are chained. A base type
// is the first of its kind, and its bucket is its kind.
fn index_one(file: &[u8], sections: Sections, records: &[u16], index: &mut [u16], i: usize)
    requires recorded { Recorded records.now (tables_of file.now sections) sections.structs }
    requires good_tables { GoodTables file.now sections × (i < sections.types) × Indexed index.old (tables_of file.now sections) i }
    requires chained { Chained index.old (tables_of file.now sections) i }
    ensures indexed { Indexed index.new (tables_of file.now sections) (i + 1) }
    ensures chained_2 { Chained index.new (tables_of file.now sections) (i + 1) }
{
    let kind = type_kind(file, sections, i);
    // (the kinds are the file's numbers: document 01's form)
    match kind {
        4 => index_struct(file, sections, records, index, i),
        5 | 7 => index_holder(file, sections, index, i, kind),
        6 => index_function(file, sections, index, i),
        _ => enter(index, i, i, sections.structs, true, 1, kind),
    }
}

// Empties the chains.
fn clear(index: &mut [u16])
    requires { 2624 ≤ length index.old }
    ensures { Cleared index.new 64 }
{
    index[2048..2112].fill(0);
}

// The entries of every type, where the struct records are chained.
fn index_each(file: &[u8], sections: Sections, records: &[u16], index: &mut [u16])
    requires { GoodTables file.now sections × (2624 ≤ length index.old) × Recorded records.now (tables_of file.now sections) sections.structs }
    ensures { Indexed index.new (tables_of file.now sections) sections.types }
{
    clear(&mut *index);
    for i in 0..sections.types {
        index_one(file, sections, records, &mut *index, i);
    }
}

// The entries of every type.
pub fn index_types(file: &[u8], sections: Sections, index: &mut [u16])
    requires { GoodTables file.now sections × (2624 ≤ length index.old) }
    ensures { Indexed index.new (tables_of file.now sections) sections.types }
{
    let mut records = [0u16; 320];
    chain_records(file, sections, &mut records);
    index_each(file, sections, &records, index);
}
