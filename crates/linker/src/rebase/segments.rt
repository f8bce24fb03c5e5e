// The segments of a load: code and read-only data stay in the module's image, Data and Bss get places of their own.
ghost use Rattle.std.specs.Prelude.{◌≡◌, length, Some};
ghost use Rattle.window.specs.Trace.{run_t};
ghost use Rattle.window.specs.Outside.{silent_stride};
ghost use Rattle.layout.specs.Header.{segment_entry_size};
ghost use Rattle.layout.specs.Segments.{segment_place};
ghost use Rattle.linker_spec.specs.Rebase.{at_offset, lent_place, moved_place, place, write_back, move_segment, move_segments, look_at_segments};

use layout::fields::{entry_address, field};
use layout::format::{SEGMENT_ENTRY_SIZE, Segment, SegmentType};
use layout::header::{SEGMENT_NUM, SEGMENT_TABLE_OFFSET};
use layout::peek;
use layout::segments::{segment, set_segment};
use linker_spec::rebase::LoadArguments;
use window::outside::silent_stride;

// The segment at another offset.
pub(crate) fn at_offset(s: Segment, offset: u32) -> Segment
    ensures { result ≡ at_offset s offset }
{
    let kind = s.kind;
    Segment {
        offset,
        size: s.size,
        kind,
    }
}

// Data or Bss in the room lent for it, if that suffices.
fn lent_place(s: Segment, address: u32, size: u32, old: u32) -> Option<(Segment, u32)>
    ensures { result ≡ lent_place s address size old }
{
    if s.size > size {
        return None;
    }
    Some((at_offset(s, address), old))
}

// A segment that stays in the image, unless it would start past the end of it.
fn moved_place(lent: LoadArguments, s: Segment, old: u32) -> Option<(Segment, u32)>
    ensures { result ≡ moved_place lent s old }
{
    if s.offset == 0 {
        return Some((s, old));
    }
    let offset = std::num::wrapping_add_u32(s.offset, lent.base);
    if offset > std::num::wrapping_add_u32(lent.base, lent.size) {
        return None;
    }
    Some((at_offset(s, offset), old))
}

// Where a load puts a segment; `old` is Data's old place so far.
fn place(lent: LoadArguments, s: Segment, old: u32) -> Option<(Segment, u32)>
    ensures { result ≡ place lent s s.kind old }
{
    let kind = s.kind;
    match kind {
        SegmentType::Code => moved_place(lent, s, old),
        SegmentType::RoData => moved_place(lent, s, old),
        SegmentType::Data => {
            if s.size == 0 {
                return moved_place(lent, s, old);
            }
            let from = std::num::wrapping_add_u32(s.offset, lent.base);
            lent_place(s, lent.data_segment, lent.data_segment_size, from)
        }
        SegmentType::Bss => {
            if s.size == 0 {
                return moved_place(lent, s, old);
            }
            lent_place(s, lent.bss_segment, lent.bss_segment_size, old)
        }
    }
}

// Writes a segment that got its place.
fn write_back(
    at: u32,
    w: &mut [u8],
    trace: &mut [u8],
    base: u32,
    index: u32,
    placed: Option<(Segment, u32)>,
) -> Option<u32>
    ensures { (result, (w.new, trace.new)) ≡ run_t at (write_back base index placed) (w.old, trace.old) }
{
    let (s, old) = placed?;
    set_segment(at, w, trace, base, index, s);
    Some(old)
}

// Moves one segment; a lookup that finds none passes it over.
fn move_segment(
    at: u32,
    w: &mut [u8],
    trace: &mut [u8],
    lent: LoadArguments,
    index: u32,
    old: u32,
) -> Option<u32>
    ensures { (result, (w.new, trace.new)) ≡ run_t at (move_segment lent index (Some old)) (w.old, trace.old) }
{
    let base = lent.base;
    let Some(s) = segment(at, w, trace, base, index) else {
        return Some(old);
    };
    write_back(at, w, trace, base, index, place(lent, s, old))
}

// How far a loop over the segments goes on from this one.
pub(crate) fn segment_stride(
    at: u32,
    w: &[u8],
    trace: &[u8],
    base: u32,
    index: u32,
    left: u32,
) -> u32
    ensures { result ≡ silent_stride at (length w.now) trace.now (segment_place at w.now base index) segment_entry_size left }
{
    let table = peek::field(at, w, base, SEGMENT_TABLE_OFFSET);
    let entry = entry_address(table, index, SEGMENT_ENTRY_SIZE);
    silent_stride(at, w.len(), trace, entry, SEGMENT_ENTRY_SIZE, left)
}

// Moves the segments in order, up to the first that is refused.
pub(crate) fn move_segments(
    at: u32,
    w: &mut [u8],
    trace: &mut [u8],
    lent: LoadArguments,
) -> Option<u32>
    ensures { (result, (w.new, trace.new)) ≡ run_t at (move_segments lent) (w.old, trace.old) }
{
    let base = lent.base;
    let count = field(at, w, trace, base, SEGMENT_NUM);
    let mut old: u32 = 0;
    let mut index: u32 = 0;
    // No range gives the indices: a turn goes on by its stride, and it needs the index, which `for_each_entry` does not give.
    while index < count {
        old = move_segment(at, w, trace, lent, index, old)?;
        index += segment_stride(at, w, trace, base, index, count - index);
    }
    Some(old)
}

// Looks every segment up and changes none. Once a touch is kept the lookups left cannot add one, however many a false count asks for.
pub(crate) fn look_at_segments(at: u32, w: &[u8], trace: &mut [u8], base: u32)
    ensures { (w.now, trace.new) ≡ (run_t at (look_at_segments base) (w.now, trace.old)).1 }
{
    let count = field(at, w, trace, base, SEGMENT_NUM);
    for i in 0..count {
        if window::said(trace) {
            return;
        }
        segment(at, w, trace, base, i);
    }
}
