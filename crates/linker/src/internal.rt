// Internal relocations: those that point within the module itself.
ghost use Rattle.std.specs.Prelude.{◌≡◌};
ghost use Rattle.window.specs.Trace.{run_t};
ghost use Rattle.linker_spec.specs.Relocation.{write_place, apply_internal_relocation, apply_internal_relocations};

use crate::entries::for_each_entry;
use layout::fields::field;
use layout::format::{RELOCATION_ENTRY_SIZE, RelocationType, SegmentTag, SegmentType};
use layout::header::{INTERNAL_RELOCATION_NUM, INTERNAL_RELOCATION_TABLE_OFFSET};
use layout::relocation::apply_relocation;
use layout::segments::segment;

// Where the word goes: one for Data is written to the copy still sitting in the module's image, which nobody has moved yet.
fn write_place(kind: SegmentType, old: u32, offset: u32, target_final: u32) -> u32
    ensures { result ≡ write_place kind old offset target_final }
{
    match kind {
        SegmentType::Data => std::num::wrapping_add_u32(old, offset),
        SegmentType::Code => target_final,
        SegmentType::RoData => target_final,
        SegmentType::Bss => target_final,
    }
}

// Applies one internal relocation; the Data segment's bytes still stand at `old`.
fn apply_internal_relocation(
    at: u32,
    w: &mut [u8],
    trace: &mut [u8],
    base: u32,
    old: u32,
    entry: u32,
)
    ensures { (w.new, trace.new) ≡ (run_t at (apply_internal_relocation base old entry) (w.old, trace.old)).1 }
{
    let tag = SegmentTag(window::read32(at, w, trace, entry));
    let kind = window::read8(at, w, trace, std::num::wrapping_add_u32(entry, 4));
    let symbol = window::read8(at, w, trace, std::num::wrapping_add_u32(entry, 5)) as u32;
    let addend = window::read32(at, w, trace, std::num::wrapping_add_u32(entry, 8));
    let Some(into) = segment(at, w, trace, base, tag.segment()) else {
        return;
    };
    let offset = tag.offset();
    if offset >= into.size {
        return;
    }
    let target_final = std::num::wrapping_add_u32(into.offset, offset);
    let part = into.kind;
    let target = write_place(part, old, offset, target_final);
    let Some(from) = segment(at, w, trace, base, symbol) else {
        return;
    };
    apply_relocation(
        at,
        w,
        trace,
        target,
        RelocationType::from(kind),
        addend,
        from.offset,
        target_final,
    );
}

// Applies the relocations that point within the module; the Data segment's bytes still stand at `old`.
pub(crate) fn apply_internal_relocations(
    at: u32,
    w: &mut [u8],
    trace: &mut [u8],
    base: u32,
    old: u32,
)
    ensures { (w.new, trace.new) ≡ (run_t at (apply_internal_relocations base old) (w.old, trace.old)).1 }
{
    let table = field(at, w, trace, base, INTERNAL_RELOCATION_TABLE_OFFSET);
    let count = field(at, w, trace, base, INTERNAL_RELOCATION_NUM);
    for_each_entry(
        at,
        w,
        trace,
        table,
        count,
        RELOCATION_ENTRY_SIZE,
        |w, trace, entry| apply_internal_relocation(at, w, trace, base, old, entry),
    );
}
