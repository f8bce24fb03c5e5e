// Words of a module that hold an offset in its file and an address while it is loaded.
ghost use Rattle.std.specs.Prelude.{◌≡◌, ℕ, ◌+◌, ◌≤◌, List, length};
ghost use Rattle.window.specs.Row.{Stands};
ghost use Rattle.window.specs.Trace.{run_t};
ghost use Rattle.linker_spec.specs.Rebase.{moved, move_word, move_header};

use layout::header::{FIRST_REBASED, NAME_OFFSET};

// An offset as an address, or the address as an offset again.
fn moved(forward: bool, base: u32, value: u32) -> u32
    ensures { result ≡ moved forward base value }
{
    if forward {
        return std::num::wrapping_add_u32(value, base);
    }
    std::num::wrapping_sub_u32(value, base)
}

// Moves the word at p, unless it is 0.
pub(crate) fn move_word(at: u32, w: &mut [u8], trace: &mut [u8], forward: bool, base: u32, p: u32)
    ensures { (w.new, trace.new) ≡ (run_t at (move_word forward base p) (w.old, trace.old)).1 }
{
    let value = window::read32(at, w, trace, p);
    if value == 0 {
        return;
    }
    window::write32(at, w, trace, p, moved(forward, base, value));
}

// The same for a word that stands inside, from place i on.
pub(crate) fn move_word_in(w: &mut [u8], forward: bool, base: u32, i: usize)
    requires { i + 4 ≤ length w.old }
    ensures { (at p : ℕ) (trace : List ℕ) → Stands at (length w.old) p 4 i
        → (w.new, trace) ≡ (run_t at (move_word forward base p) (w.old, trace)).1 }
{
    let value = window::load32(w, i);
    if value == 0 {
        return;
    }
    window::store32(w, i, moved(forward, base, value));
}

// Moves the name's offset, then the offset of each pair of offset and size from the code's on.
pub(crate) fn move_header(at: u32, w: &mut [u8], trace: &mut [u8], forward: bool, base: u32)
    ensures { (w.new, trace.new) ≡ (run_t at (move_header forward base) (w.old, trace.old)).1 }
{
    move_word(
        at,
        w,
        trace,
        forward,
        base,
        std::num::wrapping_add_u32(base, NAME_OFFSET),
    );
    for i in 0u32..17 {
        let p = std::num::wrapping_add_u32(base, FIRST_REBASED + 8 * i);
        move_word(at, w, trace, forward, base, p);
    }
}
