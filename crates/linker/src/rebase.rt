// Rebasing: every stored offset becomes an address, and the relocations within the module are applied.
pub(crate) mod segments;
pub(crate) mod tables;
pub(crate) mod words;

ghost use Rattle.std.specs.Prelude.{◌≡◌, Some};
ghost use Rattle.window.specs.Trace.{run_t};
ghost use Rattle.linker_spec.specs.Rebase.{is_magic};
ghost use Rattle.linker_spec.specs.Calls.{relocate, rebase, rebase_static};

use crate::internal::apply_internal_relocations;
use crate::rebase::segments::{look_at_segments, move_segments};
use crate::rebase::tables::move_tables;
use crate::rebase::words::move_header;
use layout::fields::field;
use layout::header::MAGIC;
use linker_spec::rebase::LoadArguments;
use linker_spec::refusal::RebaseError;

// Whether a word is `CRO0` or `CRS0`, lowest byte first.
pub(crate) fn is_magic(word: u32) -> bool
    ensures { result ≡ is_magic word }
{
    if word == 0x304F_5243 {
        return true;
    }
    word == 0x3053_5243
}

// After the segments: the pointer tables, then the internal relocations.
fn relocate(at: u32, w: &mut [u8], trace: &mut [u8], base: u32, old: u32) -> Result<(), RebaseError>
    ensures { (result, (w.new, trace.new)) ≡ run_t at (relocate base (Some old)) (w.old, trace.old) }
{
    move_tables(at, w, trace, true, base);
    apply_internal_relocations(at, w, trace, base, old);
    Ok(())
}

// Prepares a module that a load lends.
pub(crate) fn rebase(
    at: u32,
    w: &mut [u8],
    trace: &mut [u8],
    lent: LoadArguments,
) -> Result<(), RebaseError>
    ensures { (result, (w.new, trace.new)) ≡ run_t at (rebase lent) (w.old, trace.old) }
{
    let base = lent.base;
    if !is_magic(field(at, w, trace, base, MAGIC)) {
        return Err(RebaseError::NotACro);
    }
    move_header(at, w, trace, true, base);
    let old = move_segments(at, w, trace, lent).ok_or(RebaseError::BadSegment)?;
    relocate(at, w, trace, base, old)
}

// Prepares the static module: its segments are the main program's, already addresses, and are only looked up.
pub(crate) fn rebase_static(
    at: u32,
    w: &mut [u8],
    trace: &mut [u8],
    base: u32,
) -> Result<(), RebaseError>
    ensures { (result, (w.new, trace.new)) ≡ run_t at (rebase_static base) (w.old, trace.old) }
{
    if !is_magic(field(at, w, trace, base, MAGIC)) {
        return Err(RebaseError::NotACro);
    }
    move_header(at, w, trace, true, base);
    look_at_segments(at, w, trace, base);
    relocate(at, w, trace, base, 0)
}
