// The imports of a new module: named ones by lookup among all modules, itself included, and those from the modules that it names.
ghost use Rattle.std.specs.Prelude.{◌≡◌, true};
ghost use Rattle.window.specs.Trace.{run_t};
ghost use Rattle.register.specs.Decode.{register_of, is_register};
ghost use Rattle.register.specs.Read.Read.{Encoded, modules_of};
ghost use Rattle.linker_spec.specs.Imports.{import_named, apply_import_named_symbols, import_module, apply_module_imports};
ghost use Rattle.linker.specs.Imports.Missing.{imported, MissingAdded};

use crate::entries::for_each_entry;
use crate::relocation::apply_relocation_batch;
use crate::sources::batch::is_unresolved;
use crate::sources::names::module_by_name;
use crate::sources::source::{link_from, tables_of};
use layout::fields::{entry_address, field};
use layout::format::{IMPORT_MODULE_ENTRY_SIZE, IMPORT_NAMED_SYMBOL_ENTRY_SIZE};
use layout::header::{
    IMPORT_MODULE_NUM, IMPORT_MODULE_TABLE_OFFSET, IMPORT_NAMED_SYMBOL_NUM,
    IMPORT_NAMED_SYMBOL_TABLE_OFFSET,
};
use register::header::missing::push_missing;
use register::read::modules::lookup;
use window::name::read_name;
use window::outside::silent_stride;

// One named import, if it still waits; a name that nothing provides is kept as missing.
fn import_named(
    at: u32,
    w: &mut [u8],
    trace: &mut [u8],
    records: &mut [u8],
    names: &[u8],
    missing: &mut [u8],
    base: u32,
    entry: u32,
)
    requires { is_register records.old names.now missing.old ≡ true }
    ensures { let r = register_of records.old names.now missing.old in
        let x = run_t at (import_named r.modules base entry r.missing) (w.old, trace.old) in
        (((w.new, trace.new), records.new, missing.new) ≡ imported r records.old x)
        × MissingAdded r records.new names.now missing.new x.0 }
{
    let batch = window::read32(at, w, trace, std::num::wrapping_add_u32(entry, 4));
    if is_unresolved(at, w, trace, batch) {
        let address = window::read32(at, w, trace, entry);
        let mut buffer = [0u8; 512];
        let n = read_name(at, w, trace, address, &mut buffer);
        match lookup(records, names, &buffer[..n]) {
            Some(symbol) => {
                apply_relocation_batch(at, w, trace, base, batch, symbol, true);
            }
            None => {
                push_missing(records, missing, &buffer[..n]);
            }
        }
    }
}

// Resolves the named symbols that a module imports.
pub(crate) fn apply_import_named_symbols(
    at: u32,
    w: &mut [u8],
    trace: &mut [u8],
    records: &mut [u8],
    names: &[u8],
    missing: &mut [u8],
    base: u32,
)
    requires { is_register records.old names.now missing.old ≡ true }
    ensures { let r = register_of records.old names.now missing.old in
        let x = run_t at (apply_import_named_symbols r.modules base r.missing) (w.old, trace.old) in
        (((w.new, trace.new), records.new, missing.new) ≡ imported r records.old x)
        × MissingAdded r records.new names.now missing.new x.0 }
{
    let table = field(at, w, trace, base, IMPORT_NAMED_SYMBOL_TABLE_OFFSET);
    let count = field(at, w, trace, base, IMPORT_NAMED_SYMBOL_NUM);
    let mut index: u32 = 0;
    // Not `for_each_entry`: a turn writes records and missing too, and its contract is of closures that change no capture.
    while index < count {
        let entry = entry_address(table, index, IMPORT_NAMED_SYMBOL_ENTRY_SIZE);
        import_named(at, w, trace, records, names, missing, base, entry);
        index += silent_stride(
            at,
            w.len(),
            trace,
            entry,
            IMPORT_NAMED_SYMBOL_ENTRY_SIZE,
            count - index,
        );
    }
}

// The imports of one module entry, from the first module of that name; its tables are read even if there is none.
fn import_module(
    at: u32,
    w: &mut [u8],
    trace: &mut [u8],
    records: &[u8],
    names: &[u8],
    base: u32,
    entry: u32,
)
    requires { Encoded records.now names.now }
    ensures { (w.new, trace.new) ≡ (run_t at (import_module (modules_of records.now names.now) base entry) (w.old, trace.old)).1 }
{
    let address = window::read32(at, w, trace, entry);
    let found = module_by_name(at, w, trace, records, names, address);
    let tables = tables_of(at, w, trace, entry);
    let Some(place) = found else {
        return;
    };
    link_from(at, w, trace, records, place, base, tables);
}

// Resolves the indexed and anonymous symbols that a module imports from the modules that it names.
pub(crate) fn apply_module_imports(
    at: u32,
    w: &mut [u8],
    trace: &mut [u8],
    records: &[u8],
    names: &[u8],
    base: u32,
)
    requires { Encoded records.now names.now }
    ensures { (w.new, trace.new) ≡ (run_t at (apply_module_imports (modules_of records.now names.now) base) (w.old, trace.old)).1 }
{
    let table = field(at, w, trace, base, IMPORT_MODULE_TABLE_OFFSET);
    let count = field(at, w, trace, base, IMPORT_MODULE_NUM);
    for_each_entry(
        at,
        w,
        trace,
        table,
        count,
        IMPORT_MODULE_ENTRY_SIZE,
        |w, trace, entry| import_module(at, w, trace, records, names, base, entry),
    );
}
