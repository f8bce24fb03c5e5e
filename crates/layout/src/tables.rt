// The flat constant tables: entry sizes of the header's tables, and where the entries of five of them hold pointers.
ghost use Rattle.std.specs.Prelude.{◌≡◌, ◌<◌, slice_index, slice_index_or};
ghost use Rattle.layout.specs.Tables.{table_entry_sizes, pointer_tables, no_table, pointer_words};

use crate::{format, header};

// The size of one entry of each table the header lists from the module name on, one for the ones counted in bytes.
const TABLE_ENTRY_SIZES: [u32; 15] = [
    1,
    format::SEGMENT_ENTRY_SIZE,
    format::EXPORT_NAMED_SYMBOL_ENTRY_SIZE,
    format::EXPORT_INDEXED_SYMBOL_ENTRY_SIZE,
    1,
    format::EXPORT_TREE_ENTRY_SIZE,
    format::IMPORT_MODULE_ENTRY_SIZE,
    format::RELOCATION_ENTRY_SIZE,
    format::IMPORT_NAMED_SYMBOL_ENTRY_SIZE,
    format::IMPORT_INDEXED_SYMBOL_ENTRY_SIZE,
    format::IMPORT_ANONYMOUS_SYMBOL_ENTRY_SIZE,
    1,
    format::STATIC_ANONYMOUS_SYMBOL_ENTRY_SIZE,
    format::RELOCATION_ENTRY_SIZE,
    format::RELOCATION_ENTRY_SIZE,
];

// The size of an entry of the i-th of those tables, 0 past the last.
pub fn table_entry_size(i: u32) -> u32
    ensures { result ≡ slice_index table_entry_sizes i }
{
    if i < 15 {
        TABLE_ENTRY_SIZES[i as usize]
    } else {
        0
    }
}

// The tables whose entries point elsewhere in the module, seven words each:
// table field, count field, entry size, number of pointers, and where in an entry the pointers are.
const POINTER_TABLES: [u32; 35] = [
    header::EXPORT_NAMED_SYMBOL_TABLE_OFFSET,
    header::EXPORT_NAMED_SYMBOL_NUM,
    format::EXPORT_NAMED_SYMBOL_ENTRY_SIZE,
    1,
    0,
    0,
    0,
    header::IMPORT_MODULE_TABLE_OFFSET,
    header::IMPORT_MODULE_NUM,
    format::IMPORT_MODULE_ENTRY_SIZE,
    3,
    0,
    4,
    12,
    header::IMPORT_NAMED_SYMBOL_TABLE_OFFSET,
    header::IMPORT_NAMED_SYMBOL_NUM,
    format::IMPORT_NAMED_SYMBOL_ENTRY_SIZE,
    2,
    0,
    4,
    0,
    header::IMPORT_INDEXED_SYMBOL_TABLE_OFFSET,
    header::IMPORT_INDEXED_SYMBOL_NUM,
    format::IMPORT_INDEXED_SYMBOL_ENTRY_SIZE,
    1,
    4,
    0,
    0,
    header::IMPORT_ANONYMOUS_SYMBOL_TABLE_OFFSET,
    header::IMPORT_ANONYMOUS_SYMBOL_NUM,
    format::IMPORT_ANONYMOUS_SYMBOL_ENTRY_SIZE,
    1,
    4,
    0,
    0,
];

// One row of it; offsets past the number of pointers are 0.
#[derive(Clone, Copy)]
pub struct PointerTable {
    pub table: u32,
    pub count: u32,
    pub entry_size: u32,
    pub pointers: u32,
    pub first: u32,
    pub second: u32,
    pub third: u32,
}

// Word k of row i, 0 past the last row.
fn pointer_word(i: u32, k: u32) -> u32
    requires { k < 7 }
    ensures { result ≡ slice_index (pointer_words (slice_index_or pointer_tables i no_table)) k }
{
    if i < 5 {
        POINTER_TABLES[(i * 7 + k) as usize]
    } else {
        0
    }
}

// Row i, all zero past the last.
pub fn pointer_table(i: u32) -> PointerTable
    ensures { result ≡ slice_index_or pointer_tables i no_table }
{
    PointerTable {
        table: pointer_word(i, 0),
        count: pointer_word(i, 1),
        entry_size: pointer_word(i, 2),
        pointers: pointer_word(i, 3),
        first: pointer_word(i, 4),
        second: pointer_word(i, 5),
        third: pointer_word(i, 6),
    }
}
