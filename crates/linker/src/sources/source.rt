// Imports by index and by tag, from the module whose record begins at a place.
ghost use Rattle.std.specs.Prelude.{◌≡◌, ℕ, List, Some};
ghost use Rattle.window.specs.Trace.{run_t};
ghost use Rattle.register.specs.Read.Read.{module_at};
ghost use Rattle.linker_spec.specs.Imports.{anonymous_of, import_from};
ghost use Rattle.linker.specs.Sources.Source.{symbol_of, import_table, tables_of, link_tables};

use crate::entries::for_each_entry;
use crate::sources::batch::{is_unresolved, resolve};
use layout::format::{IMPORT_INDEXED_SYMBOL_ENTRY_SIZE, SegmentTag};
use register::read::{export_indexed, segment_address};

// The two tables of a module entry; the entries of both have the same size.
#[derive(Clone, Copy)]
pub(crate) enum ImportTable {
    Indexed,
    Anonymous,
}

// What a module entry says of them.
#[derive(Clone, Copy)]
pub(crate) struct ModuleTables {
    pub indexed_table: u32,
    pub indexed_count: u32,
    pub anonymous_table: u32,
    pub anonymous_count: u32,
}

// An anonymous export: the segment's address and the offset, the segment's size untested.
fn anonymous_address(records: &[u8], place: usize, tag: SegmentTag) -> Option<u32>
    ensures { (names : List ℕ) → result ≡ anonymous_of (module_at records.now names place) tag.0 }
{
    let start = segment_address(records, place, tag.segment())?;
    Some(std::num::wrapping_add_u32(start, tag.offset()))
}

// What a table's number stands for: an index, or a tag.
fn symbol_of(records: &[u8], place: usize, kind: ImportTable, number: u32) -> Option<u32>
    ensures { (names : List ℕ) → result ≡ symbol_of kind (module_at records.now names place) number }
{
    match kind {
        ImportTable::Indexed => export_indexed(records, place, number),
        ImportTable::Anonymous => anonymous_address(records, place, SegmentTag(number)),
    }
}

// One import, if it still waits.
fn import_from(
    at: u32,
    w: &mut [u8],
    trace: &mut [u8],
    records: &[u8],
    place: usize,
    kind: ImportTable,
    base: u32,
    entry: u32,
)
    ensures { (names : List ℕ) → (w.new, trace.new)
        ≡ (run_t at (import_from (symbol_of kind (module_at records.now names place)) base entry) (w.old, trace.old)).1 }
{
    let number = window::read32(at, w, trace, entry);
    let batch = window::read32(at, w, trace, std::num::wrapping_add_u32(entry, 4));
    if is_unresolved(at, w, trace, batch) {
        resolve(
            at,
            w,
            trace,
            base,
            batch,
            symbol_of(records, place, kind, number),
        );
    }
}

// The imports of one table.
fn import_table(
    at: u32,
    w: &mut [u8],
    trace: &mut [u8],
    records: &[u8],
    place: usize,
    kind: ImportTable,
    base: u32,
    table: u32,
    count: u32,
)
    ensures { (names : List ℕ) → (w.new, trace.new)
        ≡ (run_t at (import_table kind (module_at records.now names place) base table count) (w.old, trace.old)).1 }
{
    for_each_entry(
        at,
        w,
        trace,
        table,
        count,
        IMPORT_INDEXED_SYMBOL_ENTRY_SIZE,
        |w, trace, entry| import_from(at, w, trace, records, place, kind, base, entry),
    );
}

// Where the two tables of the module entry at `entry` are, and how many imports each has.
pub(crate) fn tables_of(at: u32, w: &[u8], trace: &mut [u8], entry: u32) -> ModuleTables
    ensures { (result, (w.now, trace.new)) ≡ run_t at (tables_of entry) (w.now, trace.old) }
{
    let indexed_table = window::read32(at, w, trace, std::num::wrapping_add_u32(entry, 4));
    let indexed_count = window::read32(at, w, trace, std::num::wrapping_add_u32(entry, 8));
    let anonymous_table = window::read32(at, w, trace, std::num::wrapping_add_u32(entry, 12));
    let anonymous_count = window::read32(at, w, trace, std::num::wrapping_add_u32(entry, 16));
    ModuleTables {
        indexed_table,
        indexed_count,
        anonymous_table,
        anonymous_count,
    }
}

// The imports of both tables, from the module whose record begins at the place.
pub(crate) fn link_from(
    at: u32,
    w: &mut [u8],
    trace: &mut [u8],
    records: &[u8],
    place: usize,
    base: u32,
    tables: ModuleTables,
)
    ensures { (names : List ℕ) → (w.new, trace.new)
        ≡ (run_t at (link_tables (Some (module_at records.now names place)) base tables) (w.old, trace.old)).1 }
{
    import_table(
        at,
        w,
        trace,
        records,
        place,
        ImportTable::Indexed,
        base,
        tables.indexed_table,
        tables.indexed_count,
    );
    import_table(
        at,
        w,
        trace,
        records,
        place,
        ImportTable::Anonymous,
        base,
        tables.anonymous_table,
        tables.anonymous_count,
    );
}
