// The imports of the modules that stand, served by the module whose record begins at a place.
ghost use Rattle.std.specs.Prelude.{◌≡◌};
ghost use Rattle.window.specs.Trace.{run_t};
ghost use Rattle.register.specs.Read.Read.{Encoded, modules_of, module_at, Sorted};
ghost use Rattle.linker_spec.specs.Imports.{serve_named, serve_module, serve, apply_exports_to_loaded};
ghost use Rattle.linker.specs.Imports.Served.{serve_all_named, serve_all_modules};
ghost use Rattle.linker.specs.Imports.Modules.{but_last};

use crate::entries::for_each_entry;
use crate::sources::batch::{is_unresolved, resolve};
use crate::sources::names::{export_of, is_name};
use crate::sources::source::{link_from, tables_of};
use layout::fields::field;
use layout::format::{IMPORT_MODULE_ENTRY_SIZE, IMPORT_NAMED_SYMBOL_ENTRY_SIZE};
use layout::header::{
    IMPORT_MODULE_NUM, IMPORT_MODULE_TABLE_OFFSET, IMPORT_NAMED_SYMBOL_NUM,
    IMPORT_NAMED_SYMBOL_TABLE_OFFSET,
};
use register::read::modules::module_count;
use register::read::{record_at, record_end, record_name};

// One named import, if it still waits and the module exports its name.
fn serve_named(
    at: u32,
    w: &mut [u8],
    trace: &mut [u8],
    records: &[u8],
    names: &[u8],
    place: usize,
    base: u32,
    entry: u32,
)
    requires { Sorted records.now names.now place }
    ensures { (w.new, trace.new)
        ≡ (run_t at (serve_named (module_at records.now names.now place) base entry) (w.old, trace.old)).1 }
{
    let batch = window::read32(at, w, trace, std::num::wrapping_add_u32(entry, 4));
    if is_unresolved(at, w, trace, batch) {
        let address = window::read32(at, w, trace, entry);
        let symbol = export_of(at, w, trace, records, names, place, address);
        resolve(at, w, trace, base, batch, symbol);
    }
}

// The imports of one module entry, if it names the module.
fn serve_module(
    at: u32,
    w: &mut [u8],
    trace: &mut [u8],
    records: &[u8],
    names: &[u8],
    place: usize,
    base: u32,
    entry: u32,
)
    ensures { (w.new, trace.new)
        ≡ (run_t at (serve_module (module_at records.now names.now place) base entry) (w.old, trace.old)).1 }
{
    let address = window::read32(at, w, trace, entry);
    let name = record_name(names, record_at(records, place));
    if is_name(at, w, trace, address, name) {
        let tables = tables_of(at, w, trace, entry);
        link_from(at, w, trace, records, place, base, tables);
    }
}

// The named imports of the module at base.
fn serve_all_named(
    at: u32,
    w: &mut [u8],
    trace: &mut [u8],
    records: &[u8],
    names: &[u8],
    place: usize,
    base: u32,
)
    requires { Sorted records.now names.now place }
    ensures { (w.new, trace.new)
        ≡ (run_t at (serve_all_named (module_at records.now names.now place) base) (w.old, trace.old)).1 }
{
    let table = field(at, w, trace, base, IMPORT_NAMED_SYMBOL_TABLE_OFFSET);
    let count = field(at, w, trace, base, IMPORT_NAMED_SYMBOL_NUM);
    for_each_entry(
        at,
        w,
        trace,
        table,
        count,
        IMPORT_NAMED_SYMBOL_ENTRY_SIZE,
        |w, trace, entry| serve_named(at, w, trace, records, names, place, base, entry),
    );
}

// The module entries of the module at base.
fn serve_all_modules(
    at: u32,
    w: &mut [u8],
    trace: &mut [u8],
    records: &[u8],
    names: &[u8],
    place: usize,
    base: u32,
)
    ensures { (w.new, trace.new)
        ≡ (run_t at (serve_all_modules (module_at records.now names.now place) base) (w.old, trace.old)).1 }
{
    let table = field(at, w, trace, base, IMPORT_MODULE_TABLE_OFFSET);
    let count = field(at, w, trace, base, IMPORT_MODULE_NUM);
    for_each_entry(
        at,
        w,
        trace,
        table,
        count,
        IMPORT_MODULE_ENTRY_SIZE,
        |w, trace, entry| serve_module(at, w, trace, records, names, place, base, entry),
    );
}

// Resolves the imports of the module at base that the module at the place satisfies.
fn serve(
    at: u32,
    w: &mut [u8],
    trace: &mut [u8],
    records: &[u8],
    names: &[u8],
    place: usize,
    base: u32,
)
    requires { Sorted records.now names.now place }
    ensures { (w.new, trace.new)
        ≡ (run_t at (serve (module_at records.now names.now place) base) (w.old, trace.old)).1 }
{
    serve_all_named(at, w, trace, records, names, place, base);
    serve_all_modules(at, w, trace, records, names, place, base);
}

// Resolves the imports that the module at the place satisfies in all modules but the last, which is the new one itself.
pub(crate) fn apply_exports_to_loaded(
    at: u32,
    w: &mut [u8],
    trace: &mut [u8],
    records: &[u8],
    names: &[u8],
    place: usize,
)
    requires encoded { Encoded records.now names.now }
    requires sorted { Sorted records.now names.now place }
    ensures { (w.new, trace.new)
        ≡ (run_t at (apply_exports_to_loaded (module_at records.now names.now place)
        (but_last (modules_of records.now names.now))) (w.old, trace.old)).1 }
{
    let count = module_count(records);
    let mut next: usize = 32;
    for k in 1..count {
        let record = record_at(records, next);
        serve(at, w, trace, records, names, place, record.base);
        next = record_end(record);
    }
}
