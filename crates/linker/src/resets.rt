// The resets of an unload: what linked against the module whose record begins at a place goes back to its own handler.
ghost use Rattle.std.specs.Prelude.{◌≡◌};
ghost use Rattle.window.specs.Trace.{run_t};
ghost use Rattle.register.specs.Read.Read.{Encoded, modules_of, module_at, Sorted};
ghost use Rattle.linker_spec.specs.Resets.{reset, reset_at, reset_named, reset_module, reset_imports, reset_importers};
ghost use Rattle.linker.specs.Resets.Tables.{reset_table, reset_all_named, reset_all_modules};
ghost use Rattle.linker.specs.Resets.Modules.{other_than, reset_importer};

use crate::entries::for_each_entry;
use crate::relocation::{apply_relocation_batch, batch_is_resolved, unresolved_symbol};
use crate::sources::names::{export_of, is_name};
use crate::sources::source::tables_of;
use layout::fields::field;
use layout::format::{
    IMPORT_INDEXED_SYMBOL_ENTRY_SIZE, IMPORT_MODULE_ENTRY_SIZE, IMPORT_NAMED_SYMBOL_ENTRY_SIZE,
};
use layout::header::{
    IMPORT_MODULE_NUM, IMPORT_MODULE_TABLE_OFFSET, IMPORT_NAMED_SYMBOL_NUM,
    IMPORT_NAMED_SYMBOL_TABLE_OFFSET,
};
use register::read::modules::module_count;
use register::read::{Record, record_at, record_end, record_name};

// Points a resolved batch at the handler, even if that is 0, and marks it unresolved.
fn reset(at: u32, w: &mut [u8], trace: &mut [u8], base: u32, handler: u32, batch: u32)
    ensures { (w.new, trace.new) ≡ (run_t at (reset base handler batch) (w.old, trace.old)).1 }
{
    if batch == 0 {
        return;
    }
    if batch_is_resolved(at, w, trace, batch) {
        apply_relocation_batch(at, w, trace, base, batch, handler, false);
    }
}

// The batch of one import.
fn reset_at(at: u32, w: &mut [u8], trace: &mut [u8], base: u32, handler: u32, entry: u32)
    ensures { (w.new, trace.new) ≡ (run_t at (reset_at base handler entry) (w.old, trace.old)).1 }
{
    let batch = window::read32(at, w, trace, std::num::wrapping_add_u32(entry, 4));
    reset(at, w, trace, base, handler, batch);
}

// The imports of one table of a module entry, indexed or anonymous.
fn reset_table(
    at: u32,
    w: &mut [u8],
    trace: &mut [u8],
    base: u32,
    handler: u32,
    table: u32,
    count: u32,
)
    ensures { (w.new, trace.new) ≡ (run_t at (reset_table base handler table count) (w.old, trace.old)).1 }
{
    for_each_entry(
        at,
        w,
        trace,
        table,
        count,
        IMPORT_INDEXED_SYMBOL_ENTRY_SIZE,
        |w, trace, entry| reset_at(at, w, trace, base, handler, entry),
    );
}

// A named import, if the module exported its name.
fn reset_named(
    at: u32,
    w: &mut [u8],
    trace: &mut [u8],
    records: &[u8],
    names: &[u8],
    place: usize,
    base: u32,
    handler: u32,
    entry: u32,
)
    requires { Sorted records.now names.now place }
    ensures { (w.new, trace.new)
        ≡ (run_t at (reset_named (module_at records.now names.now place) base handler entry) (w.old, trace.old)).1 }
{
    let address = window::read32(at, w, trace, entry);
    let Some(_) = export_of(at, w, trace, records, names, place, address) else {
        return;
    };
    reset_at(at, w, trace, base, handler, entry);
}

// The imports of a module entry, if it names the module.
fn reset_module(
    at: u32,
    w: &mut [u8],
    trace: &mut [u8],
    records: &[u8],
    names: &[u8],
    place: usize,
    base: u32,
    handler: u32,
    entry: u32,
)
    ensures { (w.new, trace.new)
        ≡ (run_t at (reset_module (module_at records.now names.now place) base handler entry) (w.old, trace.old)).1 }
{
    let address = window::read32(at, w, trace, entry);
    let name = record_name(names, record_at(records, place));
    if is_name(at, w, trace, address, name) {
        let tables = tables_of(at, w, trace, entry);
        reset_table(
            at,
            w,
            trace,
            base,
            handler,
            tables.indexed_table,
            tables.indexed_count,
        );
        reset_table(
            at,
            w,
            trace,
            base,
            handler,
            tables.anonymous_table,
            tables.anonymous_count,
        );
    }
}

// The named imports of the module at base.
fn reset_all_named(
    at: u32,
    w: &mut [u8],
    trace: &mut [u8],
    records: &[u8],
    names: &[u8],
    place: usize,
    base: u32,
    handler: u32,
)
    requires { Sorted records.now names.now place }
    ensures { (w.new, trace.new)
        ≡ (run_t at (reset_all_named (module_at records.now names.now place) base handler) (w.old, trace.old)).1 }
{
    let table = field(at, w, trace, base, IMPORT_NAMED_SYMBOL_TABLE_OFFSET);
    let count = field(at, w, trace, base, IMPORT_NAMED_SYMBOL_NUM);
    for_each_entry(
        at,
        w,
        trace,
        table,
        count,
        IMPORT_NAMED_SYMBOL_ENTRY_SIZE,
        |w, trace, entry| reset_named(at, w, trace, records, names, place, base, handler, entry),
    );
}

// The module entries of the module at base.
fn reset_all_modules(
    at: u32,
    w: &mut [u8],
    trace: &mut [u8],
    records: &[u8],
    names: &[u8],
    place: usize,
    base: u32,
    handler: u32,
)
    ensures { (w.new, trace.new)
        ≡ (run_t at (reset_all_modules (module_at records.now names.now place) base handler) (w.old, trace.old)).1 }
{
    let table = field(at, w, trace, base, IMPORT_MODULE_TABLE_OFFSET);
    let count = field(at, w, trace, base, IMPORT_MODULE_NUM);
    for_each_entry(
        at,
        w,
        trace,
        table,
        count,
        IMPORT_MODULE_ENTRY_SIZE,
        |w, trace, entry| reset_module(at, w, trace, records, names, place, base, handler, entry),
    );
}

// Resets what the module at base linked against the module at the place.
fn reset_imports(
    at: u32,
    w: &mut [u8],
    trace: &mut [u8],
    records: &[u8],
    names: &[u8],
    place: usize,
    base: u32,
)
    requires { Sorted records.now names.now place }
    ensures { (w.new, trace.new)
        ≡ (run_t at (reset_imports (module_at records.now names.now place) base) (w.old, trace.old)).1 }
{
    let handler = unresolved_symbol(at, w, trace, base);
    reset_all_named(at, w, trace, records, names, place, base, handler);
    reset_all_modules(at, w, trace, records, names, place, base, handler);
}

// Resets one other module, if it is auto-linked.
fn reset_importer(
    at: u32,
    w: &mut [u8],
    trace: &mut [u8],
    records: &[u8],
    names: &[u8],
    place: usize,
    record: Record,
)
    requires { Sorted records.now names.now place }
    ensures { (w.new, trace.new)
        ≡ (run_t at (reset_importer (module_at records.now names.now place) place «record») (w.old, trace.old)).1 }
{
    if record.place == place {
        return;
    }
    if record.auto_link == 1 {
        reset_imports(at, w, trace, records, names, place, record.base);
    }
}

// Resets what the auto-linked modules linked against the module at the place, itself left out.
pub(crate) fn reset_importers(
    at: u32,
    w: &mut [u8],
    trace: &mut [u8],
    records: &[u8],
    names: &[u8],
    place: usize,
)
    requires encoded { Encoded records.now names.now }
    requires sorted { Sorted records.now names.now place }
    ensures { (w.new, trace.new)
        ≡ (run_t at (reset_importers (module_at records.now names.now place)
        (other_than place 32 (modules_of records.now names.now))) (w.old, trace.old)).1 }
{
    let count = module_count(records);
    let mut next: usize = 32;
    for k in 0..count {
        let record = record_at(records, next);
        reset_importer(at, w, trace, records, names, place, record);
        next = record_end(record);
    }
}
