// The tables whose entries point elsewhere in the module.
ghost use Rattle.std.specs.Prelude.{◌≡◌, ℕ, ◌+◌, ◌*◌, ◌^◌, ◌≤◌, ◌&&◌, List, [], ◌∷◌, length, nat_le};
ghost use Rattle.window.specs.Memory.{place};
ghost use Rattle.window.specs.Loop.{loop};
ghost use Rattle.window.specs.Trace.{run_t};
ghost use Rattle.layout.specs.Segments.{entry_at};
ghost use Rattle.layout.specs.Tables.{pointer_tables};
ghost use Rattle.linker_spec.specs.Rebase.{move_pointers, pointers_of, move_table, move_tables};

use crate::entries::for_each_entry;
use crate::rebase::words::{move_word, move_word_in};
use layout::fields::{entry_address, field};
use layout::tables::{PointerTable, pointer_table};
use window::row::row_of;

// Moves the pointers of one entry.
fn move_pointers(
    at: u32,
    w: &mut [u8],
    trace: &mut [u8],
    forward: bool,
    base: u32,
    entry: u32,
    t: PointerTable,
)
    ensures { (w.new, trace.new) ≡ (run_t at (move_pointers forward base entry (pointers_of t)) (w.old, trace.old)).1 }
{
    if t.pointers == 0 {
        return;
    }
    move_word(
        at,
        w,
        trace,
        forward,
        base,
        std::num::wrapping_add_u32(entry, t.first),
    );
    if t.pointers == 1 {
        return;
    }
    move_word(
        at,
        w,
        trace,
        forward,
        base,
        std::num::wrapping_add_u32(entry, t.second),
    );
    if t.pointers == 2 {
        return;
    }
    move_word(
        at,
        w,
        trace,
        forward,
        base,
        std::num::wrapping_add_u32(entry, t.third),
    );
}

// Whether the pointers lie within an entry. Offsets past their number are 0, and lie there if any does.
fn pointers_within(t: PointerTable) -> bool
    ensures { result ≡ (nat_le (t.first + 4) t.entry_size && (nat_le (t.second + 4) t.entry_size && nat_le (t.third + 4) t.entry_size)) }
{
    let size = t.entry_size as usize;
    if size < (t.first as usize) + 4 {
        return false;
    }
    if size < (t.second as usize) + 4 {
        return false;
    }
    (t.third as usize) + 4 <= size
}

// Moves the one pointer of each entry of a table that stands in a row from place `start` on.
fn move_single(
    w: &mut [u8],
    forward: bool,
    base: u32,
    start: usize,
    first: u32,
    size: u32,
    count: u32,
)
    requires { (first + 4 ≤ size) × (start + count * size ≤ 2 ^ 32) × (start + count * size ≤ length w.old) }
    ensures { (at table : ℕ) (trace : List ℕ) → start ≡ place at table
        → (w.new, trace) ≡ (run_t at (loop (λ i _. move_pointers forward base (entry_at table i size) (first ∷ [])) 0 count tt) (w.old, trace)).1 }
{
    let step = size as usize;
    let mut place = start + (first as usize);
    for index in 0..count {
        move_word_in(w, forward, base, place);
        place += step;
    }
}

// Moves the pointers of each entry of a table, one entry after the other.
#[cold]
fn move_each_entry(
    at: u32,
    w: &mut [u8],
    trace: &mut [u8],
    forward: bool,
    base: u32,
    table: u32,
    count: u32,
    t: PointerTable,
)
    ensures { (w.new, trace.new) ≡ (run_t at (loop (λ i _. move_pointers forward base (entry_at table i t.entry_size) (pointers_of t)) 0 count tt) (w.old, trace.old)).1 }
{
    for index in 0..count {
        let entry = entry_address(table, index, t.entry_size);
        move_pointers(at, w, trace, forward, base, entry, t);
    }
}

// The same. Entries outside are passed over, unless a pointer may lie past its entry's end. None of the five tables' does, so that way
// is cold: else the compiler takes both for as likely, and leaves accesses of the usual one calls.
fn move_entries(
    at: u32,
    w: &mut [u8],
    trace: &mut [u8],
    forward: bool,
    base: u32,
    table: u32,
    count: u32,
    t: PointerTable,
)
    ensures { (w.new, trace.new) ≡ (run_t at (loop (λ i _. move_pointers forward base (entry_at table i t.entry_size) (pointers_of t)) 0 count tt) (w.old, trace.old)).1 }
{
    if !pointers_within(t) {
        move_each_entry(at, w, trace, forward, base, table, count, t);
        return;
    }
    for_each_entry(
        at,
        w,
        trace,
        table,
        count,
        t.entry_size,
        |w, trace, entry| move_pointers(at, w, trace, forward, base, entry, t),
    );
}

// Moves the pointers of each entry of one table, unless its offset is 0.
fn move_table(at: u32, w: &mut [u8], trace: &mut [u8], forward: bool, base: u32, t: PointerTable)
    ensures { (w.new, trace.new) ≡ (run_t at (move_table forward base t) (w.old, trace.old)).1 }
{
    let table = field(at, w, trace, base, t.table);
    let count = field(at, w, trace, base, t.count);
    if table == 0 {
        return;
    }
    if t.pointers == 1 {
        if pointers_within(t) {
            let bytes = (count as usize) * (t.entry_size as usize);
            if let Some(start) = row_of(at, w.len(), table, bytes) {
                move_single(w, forward, base, start, t.first, t.entry_size, count);
                return;
            }
        }
    }
    move_entries(at, w, trace, forward, base, table, count, t);
}

// Turns the offsets that the five tables' entries hold into addresses, or back.
pub(crate) fn move_tables(at: u32, w: &mut [u8], trace: &mut [u8], forward: bool, base: u32)
    ensures { (w.new, trace.new) ≡ (run_t at (move_tables forward base pointer_tables) (w.old, trace.old)).1 }
{
    for i in 0u32..5 {
        move_table(at, w, trace, forward, base, pointer_table(i));
    }
}
