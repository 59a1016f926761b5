// A file that was read.
ghost use Rattle.file_sections.specs.Layout.{tables_of, GoodTables};
ghost use Rattle.type_index.specs.Index.{Indexed};

use file_sections::Sections;

// The bytes and the sections of a file whose tables keep the rules, and the index of its types.
#[derive(Clone, Copy)]
pub struct IndexedFile<'a> {
    pub bytes: &'a [u8],
    pub sections: Sections,
    pub index: &'a [u16],
    pub ghost read: { GoodTables bytes.now sections },
    pub ghost indexed: { Indexed index.now (tables_of bytes.now sections) sections.types },
}
