// The entries of a table in the window, one after another.
ghost use Rattle.std.specs.Prelude.{◌≡◌, ℕ};
ghost use Rattle.window.specs.Access.{Prog};
ghost use Rattle.window.specs.Loop.{loop};
ghost use Rattle.window.specs.Trace.{run_t};
ghost use Rattle.window.specs.Outside.{Idle};
ghost use Rattle.layout.specs.Segments.{entry_at};
ghost use Rattle.linker.specs.Entries.{Makes};

use layout::fields::entry_address;
use window::outside::silent_stride;

// Gives the entries of a table to `turn`, in order. Once a touch is kept those that lie wholly outside are passed over.
pub(crate) fn for_each_entry<F: Fn(&mut [u8], &mut [u8], u32)>(
    at: u32,
    w: &mut [u8],
    trace: &mut [u8],
    table: u32,
    count: u32,
    size: u32,
    turn: F,
)
    requires { F.IsAlwaysCallable turn }
    ensures { (f : ℕ → Prog (Unit {0})) → Idle at f size
        → Makes at f (F.post turn)
        → (w.new, trace.new) ≡ (run_t at (loop (λ i _. f (entry_at table i size)) 0 count tt) (w.old, trace.old)).1 }
{
    let mut index: u32 = 0;
    // No range gives the indices: a turn goes on by what `silent_stride` finds after it.
    while index < count {
        let entry = entry_address(table, index, size);
        turn(w, trace, entry);
        index += silent_stride(at, w.len(), trace, entry, size, count - index);
    }
}
