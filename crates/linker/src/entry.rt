// A module's entry into the register.
ghost use Rattle.std.specs.Prelude.{◌≡◌};
ghost use Rattle.register.specs.Read.Read.{Encoded};
ghost use Rattle.linker_spec.specs.Refusal.{number_of};
ghost use Rattle.linker.specs.Entry.Entry.{record_added};

use crate::exports::index_exports;
use crate::relocation::reset_external_relocations;
use crate::touches::touch_module;
use linker_spec::refusal::{RebaseError, Refusal};

// Gives a rebased module its record, unless the rebase failed or there is no room for it. What the Rust reads for a record is touched in
// its order once the record stands: where there is no room nothing of it counts.
pub(crate) fn add_record(
    at: u32,
    w: &mut [u8],
    trace: &mut [u8],
    records: &mut [u8],
    names: &mut [u8],
    base: u32,
    size: u32,
    auto_link: bool,
    rebased: Result<(), RebaseError>,
) -> Result<(), Refusal>
    requires { Encoded records.old names.old }
    ensures { (number_of result, (w.new, trace.new), records.new, names.new)
        ≡ record_added at records.old names.old base size auto_link rebased (w.old, trace.old) }
{
    rebased?;
    reset_external_relocations(at, w, trace, base);
    let Some(()) = index_exports(at, w, records, names, base, size, auto_link) else {
        return Err(Refusal::NoRoom);
    };
    touch_module(at, w, trace, base);
    Ok(())
}
