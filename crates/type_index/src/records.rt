// The struct records by name: chains. The first 64 numbers of `records` are the heads of chains, one for the names of each remainder by
// 64; the number 64 + k leads from a record to the next of its chain. Records count from the last one here, so that a chain leads
// from lower to higher records: k stands for the record `structs - 1 - k`. All one higher, 0 for none.
ghost use Rattle.std.specs.Prelude.{◌≡◌};
ghost use Rattle.file_sections.specs.Layout.{Laid, tables_of};
ghost use Rattle.type_index.specs.Index.{record_of};
ghost use Rattle.type_index.specs.Records.{Recorded, RecordsFresh};

use crate::walk::last_where;
use chains::link;
use file_sections::Sections;
use file_sections::records::struct_name;

// Chains all records; `records` comes with no chain in it.
pub fn chain_records(file: &[u8], sections: Sections, records: &mut [u16])
    requires { RecordsFresh file.now sections records.old }
    ensures { Recorded records.new (tables_of file.now sections) sections.structs }
{
    for k in 0..sections.structs {
        let name = struct_name(file, sections, sections.structs - 1 - k);
        link(records, name % 64, 64 + k, k + 1);
    }
}

// The first record of the struct with this name, or the number of structs.
pub fn record_of(file: &[u8], sections: Sections, records: &[u16], name: usize) -> usize
    requires { Laid file.now sections × Recorded records.now (tables_of file.now sections) sections.structs }
    ensures { result ≡ record_of (tables_of file.now sections) name }
{
    let found = last_where(
        records,
        name % 64,
        64,
        |k| struct_name(file, sections, sections.structs - 1 - k) == name,
    );
    match found {
        Some(k) => sections.structs - 1 - k,
        None => sections.structs,
    }
}
