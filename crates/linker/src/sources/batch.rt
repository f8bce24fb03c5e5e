// A batch of relocations and the symbol for it.
ghost use Rattle.std.specs.Prelude.{◌≡◌};
ghost use Rattle.window.specs.Trace.{run_t};
ghost use Rattle.linker_spec.specs.Imports.{is_unresolved, resolve};

use crate::relocation::{apply_relocation_batch, batch_is_resolved};

// Whether a batch still waits for its symbol: one at 0 does not, and is not read.
pub(crate) fn is_unresolved(at: u32, w: &[u8], trace: &mut [u8], batch: u32) -> bool
    ensures { (result, (w.now, trace.new)) ≡ run_t at (is_unresolved batch) (w.now, trace.old) }
{
    if batch == 0 {
        return false;
    }
    !batch_is_resolved(at, w, trace, batch)
}

// Gives the batch the symbol's address and marks it; with no symbol it stays.
pub(crate) fn resolve(
    at: u32,
    w: &mut [u8],
    trace: &mut [u8],
    base: u32,
    batch: u32,
    symbol: Option<u32>,
)
    ensures { (w.new, trace.new) ≡ (run_t at (resolve base batch symbol) (w.old, trace.old)).1 }
{
    let Some(address) = symbol else {
        return;
    };
    apply_relocation_batch(at, w, trace, base, batch, address, true);
}
