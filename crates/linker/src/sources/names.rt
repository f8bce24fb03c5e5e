// Names in the window and what they stand for. Each is read once into a buffer of its own, then compared as bytes.
ghost use Rattle.std.specs.Prelude.{◌≡◌};
ghost use Rattle.window.specs.Trace.{run_t};
ghost use Rattle.window.specs.Name.{name_at};
ghost use Rattle.register.specs.Words.{same};
ghost use Rattle.register.specs.Read.Read.{Encoded, modules_of, place_from, has_name, export_of, module_at, Sorted};

use register::exports::same_name;
use register::read::export_named;
use register::read::modules::first_with_name;
use window::name::read_name;

// Where the record of the first module with the name at `address` begins.
pub(crate) fn module_by_name(
    at: u32,
    w: &[u8],
    trace: &mut [u8],
    records: &[u8],
    names: &[u8],
    address: u32,
) -> Option<usize>
    requires { Encoded records.now names.now }
    ensures { (result ≡ place_from 32 (modules_of records.now names.now)
        (has_name (run_t at (name_at address) (w.now, trace.old)).0))
        × ((w.now, trace.new) ≡ (run_t at (name_at address) (w.now, trace.old)).1) }
{
    let mut buffer = [0u8; 512];
    let n = read_name(at, w, trace, address, &mut buffer);
    first_with_name(records, names, &buffer[..n])
}

// The export with the name at `address` of the record at a place.
pub(crate) fn export_of(
    at: u32,
    w: &[u8],
    trace: &mut [u8],
    records: &[u8],
    names: &[u8],
    place: usize,
    address: u32,
) -> Option<u32>
    requires { Sorted records.now names.now place }
    ensures { (result ≡ export_of (module_at records.now names.now place) (run_t at (name_at address) (w.now, trace.old)).0)
        × ((w.now, trace.new) ≡ (run_t at (name_at address) (w.now, trace.old)).1) }
{
    let mut buffer = [0u8; 512];
    let n = read_name(at, w, trace, address, &mut buffer);
    export_named(records, names, place, &buffer[..n])
}

// Whether the name at `address` is that one.
pub(crate) fn is_name(at: u32, w: &[u8], trace: &mut [u8], address: u32, name: &[u8]) -> bool
    ensures { (result ≡ same (run_t at (name_at address) (w.now, trace.old)).0 name.now)
        × ((w.now, trace.new) ≡ (run_t at (name_at address) (w.now, trace.old)).1) }
{
    let mut buffer = [0u8; 512];
    let n = read_name(at, w, trace, address, &mut buffer);
    same_name(&buffer[..n], name)
}
