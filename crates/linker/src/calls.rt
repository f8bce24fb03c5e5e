// The three calls over a lent trace, once the tests of window and register have passed.
ghost use Rattle.std.specs.Prelude.{◌≡◌, true, not, nat_eq};
ghost use Rattle.window.specs.Access.{ret};
ghost use Rattle.window.specs.Trace.{run_t};
ghost use Rattle.register.specs.Decode.{register_of, is_register};
ghost use Rattle.register.specs.Module.{Module, Register};
ghost use Rattle.register.specs.Change.{appended};
ghost use Rattle.register.specs.Read.Read.{place_after};
ghost use Rattle.linker_spec.specs.Calls.{rebase, rebase_static, listed, unlisted, initialize, load, unload};
ghost use Rattle.linker_spec.specs.Refusal.{number_of, value_of};
ghost use Rattle.linker_spec.specs.Touches.{up_to_reset};
ghost use Rattle.linker_spec.specs.Outcome.{buffers, outcome};
ghost use Rattle.linker.specs.Calls.Steps.{clear_list_fields};
ghost use Rattle.linker.specs.Calls.Linked.{header_crs, LastRecord, LinkLeaves};
ghost use Rattle.linker.specs.Calls.Traced.{traced};

use crate::entry::add_record;
use crate::fix::fix;
use crate::imports::others::apply_exports_to_loaded;
use crate::imports::own::{apply_import_named_symbols, apply_module_imports};
use crate::resets::reset_importers;
use crate::unrebase::unrebase;
use crate::{lists, rebase};
use layout::fields::set_field;
use layout::header::{NEXT_CRO, PREVIOUS_CRO};
use linker_spec::rebase::LoadArguments;
use linker_spec::refusal::Refusal;
use register::change::remove::remove_record;
use register::header::crs::set_crs;
use register::read::modules::first_with_base;
use register::words::{read_crs, used_bytes};

// The static module heads no list yet.
fn clear_list_fields(at: u32, w: &mut [u8], trace: &mut [u8], base: u32)
    ensures { (w.new, trace.new) ≡ (run_t at (clear_list_fields base) (w.old, trace.old)).1 }
{
    set_field(at, w, trace, base, NEXT_CRO, 0);
    set_field(at, w, trace, base, PREVIOUS_CRO, 0);
}

// Puts a module into its list, where the static module is known.
fn list(at: u32, w: &mut [u8], trace: &mut [u8], records: &[u8], base: u32, auto_link: bool)
    ensures { (w.new, trace.new) ≡ (run_t at (listed (header_crs records.now) base auto_link) (w.old, trace.old)).1 }
{
    let Some(crs) = read_crs(records) else {
        return;
    };
    lists::register(at, w, trace, crs, base, auto_link);
}

// Takes a module out of its list, where the static module is known.
fn unlist(at: u32, w: &mut [u8], trace: &mut [u8], records: &[u8], base: u32)
    ensures { (w.new, trace.new) ≡ (run_t at (unlisted (header_crs records.now) base) (w.old, trace.old)).1 }
{
    let Some(crs) = read_crs(records) else {
        return;
    };
    lists::unregister(at, w, trace, crs, base);
}

// Links the module whose record is the last one, at the place, and fixes it; gives what fixing gives.
fn link(
    at: u32,
    w: &mut [u8],
    trace: &mut [u8],
    records: &mut [u8],
    names: &[u8],
    missing: &mut [u8],
    place: usize,
    given: LoadArguments,
    auto_link: bool,
    fix_level: u32,
) -> u32
    requires registered { is_register records.old names.now missing.old ≡ true }
    requires last_record { LastRecord records.old names.now place }
    ensures { (old : Register) (m : Module) → register_of records.old names.now missing.old ≡ appended old m
        → place ≡ place_after 32 old.modules
        → LinkLeaves at old given auto_link fix_level m (w.old, trace.old) result (w.new, trace.new) records.new names.now missing.new }
{
    list(at, w, trace, records, given.base, auto_link);
    apply_import_named_symbols(at, w, trace, records, names, missing, given.base);
    apply_module_imports(at, w, trace, records, names, given.base);
    apply_exports_to_loaded(at, w, trace, records, names, place);
    fix(at, w, trace, given.base, given.size, fix_level)
}

// Takes in the static module, whose base the register keeps from then on.
pub fn initialize(
    at: u32,
    w: &mut [u8],
    trace: &mut [u8],
    records: &mut [u8],
    names: &mut [u8],
    missing: &mut [u8],
    base: u32,
    size: u32,
) -> Result<u32, Refusal>
    requires { is_register records.old names.old missing.old ≡ true }
    ensures { (outcome (number_of result) (value_of result) (buffers w.new records.new names.new missing.new), trace.new)
        ≡ traced (initialize base size) (up_to_reset (rebase_static base) base) at
        (buffers w.old records.old names.old missing.old) trace.old }
{
    let rebased = rebase::rebase_static(at, w, trace, base);
    add_record(at, w, trace, records, names, base, size, true, rebased)?;
    clear_list_fields(at, w, trace, base);
    set_crs(records, base);
    Ok(0)
}

// Loads a module: links it, and gives as value how much of it is left.
pub fn load(
    at: u32,
    w: &mut [u8],
    trace: &mut [u8],
    records: &mut [u8],
    names: &mut [u8],
    missing: &mut [u8],
    given: LoadArguments,
    auto_link: u32,
    fix_level: u32,
) -> Result<u32, Refusal>
    requires { is_register records.old names.old missing.old ≡ true }
    ensures { (outcome (number_of result) (value_of result) (buffers w.new records.new names.new missing.new), trace.new)
        ≡ traced (load given (not (nat_eq auto_link 0)) fix_level) (up_to_reset (rebase given) given.base) at
        (buffers w.old records.old names.old missing.old) trace.old }
{
    let place = used_bytes(records) as usize;
    let auto = auto_link != 0;
    let rebased = rebase::rebase(at, w, trace, given);
    add_record(
        at, w, trace, records, names, given.base, given.size, auto, rebased,
    )?;
    let fixed = link(
        at, w, trace, records, names, missing, place, given, auto, fix_level,
    );
    Ok(fixed)
}

// Unloads the first module with that base: the modules that linked on their own no longer use it, and its record is gone.
// Gives 1 where a module left, 0 where none has that base, as C has it.
pub fn unload(
    at: u32,
    w: &mut [u8],
    trace: &mut [u8],
    records: &mut [u8],
    names: &mut [u8],
    missing: &mut [u8],
    base: u32,
) -> u32
    requires { is_register records.old names.old missing.old ≡ true }
    ensures { (outcome 0 result (buffers w.new records.exit.now names.exit.now missing.new), trace.new)
        ≡ traced (λ records names. unload base) (ret tt) at
        (buffers w.old records.entry.now names.entry.now missing.old) trace.old }
{
    let Some(place) = first_with_base(records, base) else {
        return 0;
    };
    reset_importers(at, w, trace, records, names, place);
    unlist(at, w, trace, records, base);
    unrebase(at, w, trace, base);
    remove_record(records, names, place);
    1
}
