// Segments of a module, and the addresses that tags give.
ghost use Rattle.std.specs.Prelude.{◌≡◌};
ghost use Rattle.window.specs.Trace.{run_t};
ghost use Rattle.layout.specs.Segments.{segment, set_segment, tag_to_address};
ghost use Rattle.layout.specs.SegmentRow.{segment_row};

use crate::fields::{entry_address, field};
use crate::format::{SEGMENT_ENTRY_SIZE, Segment, SegmentTag, SegmentType};
use crate::header::{SEGMENT_NUM, SEGMENT_TABLE_OFFSET};
use window::load32;
use window::row::row_of;

// Where the entry of a segment stands, if table offset, count and entry are inside, each in a row, and the segment exists.
pub fn segment_row(at: u32, w: &[u8], base: u32, index: u32) -> Option<usize>
    ensures { result ≡ segment_row at w.now base index }
{
    let head = row_of(
        at,
        w.len(),
        std::num::wrapping_add_u32(base, SEGMENT_TABLE_OFFSET),
        8,
    )?;
    if index >= load32(w, head + 4) {
        return None;
    }
    let entry = entry_address(load32(w, head), index, SEGMENT_ENTRY_SIZE);
    row_of(at, w.len(), entry, 12)
}

// Looks a segment up: count, table offset and entry are read anew.
pub fn segment(at: u32, w: &[u8], trace: &mut [u8], base: u32, index: u32) -> Option<Segment>
    ensures { (result, (w.now, trace.new)) ≡ run_t at (segment base index) (w.now, trace.old) }
{
    let Some(i) = segment_row(at, w, base, index) else {
        return segment_anywhere(at, &w[..], trace, base, index);
    };
    Some(Segment {
        offset: load32(w, i),
        size: load32(w, i + 4),
        kind: SegmentType::from(load32(w, i + 8)),
    })
}

// The same where some of it may be outside, access by access.
fn segment_anywhere(at: u32, w: &[u8], trace: &mut [u8], base: u32, index: u32) -> Option<Segment>
    ensures { (result, (w.now, trace.new)) ≡ run_t at (segment base index) (w.now, trace.old) }
{
    if index >= field(at, w, trace, base, SEGMENT_NUM) {
        return None;
    }
    let table = field(at, w, trace, base, SEGMENT_TABLE_OFFSET);
    let entry = entry_address(table, index, SEGMENT_ENTRY_SIZE);
    let offset = window::read32(at, w, trace, entry);
    let size = window::read32(at, w, trace, std::num::wrapping_add_u32(entry, 4));
    let kind = window::read32(at, w, trace, std::num::wrapping_add_u32(entry, 8));
    Some(Segment {
        offset,
        size,
        kind: SegmentType::from(kind),
    })
}

// Writes a segment back: the table offset is read anew.
pub fn set_segment(at: u32, w: &mut [u8], trace: &mut [u8], base: u32, index: u32, value: Segment)
    ensures { (w.new, trace.new) ≡ (run_t at (set_segment base index value) (w.old, trace.old)).1 }
{
    let table = field(at, w, trace, base, SEGMENT_TABLE_OFFSET);
    let entry = entry_address(table, index, SEGMENT_ENTRY_SIZE);
    window::write32(at, w, trace, entry, value.offset);
    window::write32(
        at,
        w,
        trace,
        std::num::wrapping_add_u32(entry, 4),
        value.size,
    );
    let kind = value.kind;
    window::write32(
        at,
        w,
        trace,
        std::num::wrapping_add_u32(entry, 8),
        u32::from(kind),
    );
}

// Resolves a segment tag to an address inside the module.
pub fn tag_to_address(
    at: u32,
    w: &[u8],
    trace: &mut [u8],
    base: u32,
    tag: SegmentTag,
) -> Option<u32>
    ensures { (result, (w.now, trace.new)) ≡ run_t at (tag_to_address base tag.0) (w.now, trace.old) }
{
    let entry = segment(at, w, trace, base, tag.segment())?;
    let offset = tag.offset();
    if offset >= entry.size {
        return None;
    }
    Some(std::num::wrapping_add_u32(entry.offset, offset))
}
