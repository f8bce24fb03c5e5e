// External relocations: single entries, batches, and the handler for what nothing provides.
ghost use Rattle.std.specs.Prelude.{◌≡◌};
ghost use Rattle.window.specs.Trace.{run_t};
ghost use Rattle.linker_spec.specs.Relocation.{unresolved_symbol, reset_entry, reset_external_relocations, apply_relocation_batch, batch_is_resolved};
ghost use Rattle.linker.specs.Relocation.Entry.{apply_entry, walk_entry};

use crate::entries::for_each_entry;
use layout::fields::{entry_address, field};
use layout::format::{RELOCATION_ENTRY_SIZE, RelocationType, SegmentTag};
use layout::header::{
    EXTERNAL_RELOCATION_NUM, EXTERNAL_RELOCATION_TABLE_OFFSET, ON_UNRESOLVED_SEGMENT_TAG,
};
use layout::relocation::apply_relocation;
use layout::segments::{segment_row, tag_to_address};
use window::outside::silent_stride;
use window::row::row_of;
use window::{load32, read8, read32, write8};

// Applies one external relocation with symbol, if its tag is usable.
fn apply_entry(at: u32, w: &mut [u8], trace: &mut [u8], base: u32, symbol: u32, entry: u32)
    ensures { (w.new, trace.new) ≡ (run_t at (apply_entry base symbol entry) (w.old, trace.old)).1 }
{
    let tag = read32(at, w, trace, entry);
    let kind = read8(at, w, trace, std::num::wrapping_add_u32(entry, 4));
    let addend = read32(at, w, trace, std::num::wrapping_add_u32(entry, 8));
    let Some(target) = tag_to_address(at, w, trace, base, SegmentTag(tag)) else {
        return;
    };
    apply_relocation(
        at,
        w,
        trace,
        target,
        RelocationType::from(kind),
        addend,
        symbol,
        target,
    );
}

// The same for an entry of a batch, and gives its end mark. Where entry and segment are inside, each in a row, they are read by place.
// Two paths lead to walk_anywhere, so that the compiler leaves it a call and puts this one into the walk.
fn walk_entry(at: u32, w: &mut [u8], trace: &mut [u8], base: u32, symbol: u32, entry: u32) -> u8
    ensures { (result, (w.new, trace.new)) ≡ run_t at (walk_entry base symbol entry) (w.old, trace.old) }
{
    let Some(i) = row_of(at, w.len(), entry, 12) else {
        return walk_anywhere(at, w, trace, base, symbol, entry);
    };
    let tag = SegmentTag(load32(w, i));
    let Some(s) = segment_row(at, w, base, tag.segment()) else {
        return walk_anywhere(at, w, trace, base, symbol, entry);
    };
    let end = w[i + 5];
    let offset = tag.offset();
    if offset >= load32(w, s + 4) {
        return end;
    }
    let target = std::num::wrapping_add_u32(load32(w, s), offset);
    let kind = RelocationType::from(w[i + 4]);
    let addend = load32(w, i + 8);
    apply_relocation(at, w, trace, target, kind, addend, symbol, target);
    end
}

// The same where some of it may be outside, access by access; the end mark is read between kind and addend.
fn walk_anywhere(at: u32, w: &mut [u8], trace: &mut [u8], base: u32, symbol: u32, entry: u32) -> u8
    ensures { (result, (w.new, trace.new)) ≡ run_t at (walk_entry base symbol entry) (w.old, trace.old) }
{
    let tag = read32(at, w, trace, entry);
    let number = read8(at, w, trace, std::num::wrapping_add_u32(entry, 4));
    let end = read8(at, w, trace, std::num::wrapping_add_u32(entry, 5));
    let addend = read32(at, w, trace, std::num::wrapping_add_u32(entry, 8));
    let Some(target) = tag_to_address(at, w, trace, base, SegmentTag(tag)) else {
        return end;
    };
    let kind = RelocationType::from(number);
    apply_relocation(at, w, trace, target, kind, addend, symbol, target);
    end
}

// Walks a batch of external relocations, applying each with symbol, records whether the batch is now resolved,
// and gives the number of entries walked: a malformed table must not loop forever.
pub(crate) fn apply_relocation_batch(
    at: u32,
    w: &mut [u8],
    trace: &mut [u8],
    base: u32,
    batch: u32,
    symbol: u32,
    resolved: bool,
) -> u32
    ensures { (result, (w.new, trace.new)) ≡ run_t at (apply_relocation_batch base batch symbol resolved) (w.old, trace.old) }
{
    let mut entry = batch;
    let mut walked: u16 = 0;
    // No range gives the entries: a turn goes on by its stride, up to 0x1001 of them.
    loop {
        let end = walk_entry(at, w, trace, base, symbol, entry);
        if end != 0 {
            walked += 1;
            break;
        }
        let left = (0x1001 - walked) as u32;
        let passed = silent_stride(at, w.len(), trace, entry, RELOCATION_ENTRY_SIZE, left);
        walked += passed as u16;
        if walked == 0x1001 {
            break;
        }
        entry = entry_address(entry, passed, RELOCATION_ENTRY_SIZE);
    }
    write8(
        at,
        w,
        trace,
        std::num::wrapping_add_u32(batch, 6),
        resolved as u8,
    );
    walked as u32
}

// Whether the first entry's mark says that the batch is resolved.
pub(crate) fn batch_is_resolved(at: u32, w: &[u8], trace: &mut [u8], batch: u32) -> bool
    ensures { (result, (w.now, trace.new)) ≡ run_t at (batch_is_resolved batch) (w.now, trace.old) }
{
    read8(at, w, trace, std::num::wrapping_add_u32(batch, 6)) != 0
}

// The module's own handler for imports that nothing provides, 0 where its tag is unusable.
pub(crate) fn unresolved_symbol(at: u32, w: &[u8], trace: &mut [u8], base: u32) -> u32
    ensures { (result, (w.now, trace.new)) ≡ run_t at (unresolved_symbol base) (w.now, trace.old) }
{
    let tag = SegmentTag(field(at, w, trace, base, ON_UNRESOLVED_SEGMENT_TAG));
    tag_to_address(at, w, trace, base, tag).unwrap_or(0)
}

// Points one import at the handler, unless that is 0, and clears its mark.
fn reset_entry(at: u32, w: &mut [u8], trace: &mut [u8], base: u32, handler: u32, entry: u32)
    ensures { (w.new, trace.new) ≡ (run_t at (reset_entry base handler entry) (w.old, trace.old)).1 }
{
    if handler != 0 {
        apply_entry(at, w, trace, base, handler, entry);
    }
    write8(at, w, trace, std::num::wrapping_add_u32(entry, 6), 0);
}

// Points every import at the module's handler and marks it unresolved, which is the state a freshly loaded module starts in.
pub(crate) fn reset_external_relocations(at: u32, w: &mut [u8], trace: &mut [u8], base: u32)
    ensures { (w.new, trace.new) ≡ (run_t at (reset_external_relocations base) (w.old, trace.old)).1 }
{
    let handler = unresolved_symbol(at, w, trace, base);
    let table = field(at, w, trace, base, EXTERNAL_RELOCATION_TABLE_OFFSET);
    let count = field(at, w, trace, base, EXTERNAL_RELOCATION_NUM);
    for_each_entry(
        at,
        w,
        trace,
        table,
        count,
        RELOCATION_ENTRY_SIZE,
        |w, trace, entry| reset_entry(at, w, trace, base, handler, entry),
    );
}
