// Unrebasing: an unloaded module gets its offsets back, as its file has them. The port of that part of cro/mod.rs.
ghost use Rattle.std.specs.Prelude.{◌≡◌};
ghost use Rattle.window.specs.Trace.{run_t};
ghost use Rattle.linker_spec.specs.Unrebase.{offset_back, leaves_as, unmove_segment, unmove_segments, unrebase};

use crate::rebase::segments::{at_offset, segment_stride};
use crate::rebase::tables::move_tables;
use crate::rebase::words::move_header;
use layout::fields::{field, set_field};
use layout::format::{Segment, SegmentType};
use layout::header::{FIXED_SIZE, SEGMENT_NUM};
use layout::segments::{segment, set_segment};

// The offset that an address was, 0 where it is 0.
fn offset_back(base: u32, x: u32) -> u32
    ensures { result ≡ offset_back base x }
{
    if x == 0 {
        return 0;
    }
    std::num::wrapping_sub_u32(x, base)
}

// How a segment leaves: Bss with no offset, the others with theirs.
fn leaves_as(base: u32, s: Segment) -> Segment
    ensures { result ≡ leaves_as base s s.kind }
{
    let kind = s.kind;
    match kind {
        SegmentType::Code => at_offset(s, offset_back(base, s.offset)),
        SegmentType::RoData => at_offset(s, offset_back(base, s.offset)),
        SegmentType::Data => at_offset(s, offset_back(base, s.offset)),
        SegmentType::Bss => at_offset(s, 0),
    }
}

fn unmove_segment(at: u32, w: &mut [u8], trace: &mut [u8], base: u32, index: u32)
    ensures { (w.new, trace.new) ≡ (run_t at (unmove_segment base index) (w.old, trace.old)).1 }
{
    let Some(s) = segment(at, w, trace, base, index) else {
        return;
    };
    set_segment(at, w, trace, base, index, leaves_as(base, s));
}

fn unmove_segments(at: u32, w: &mut [u8], trace: &mut [u8], base: u32)
    ensures { (w.new, trace.new) ≡ (run_t at (unmove_segments base) (w.old, trace.old)).1 }
{
    let count = field(at, w, trace, base, SEGMENT_NUM);
    let mut index: u32 = 0;
    // No range gives the indices: a turn goes on by its stride, and it needs the index, which `for_each_entry` does not give.
    while index < count {
        unmove_segment(at, w, trace, base, index);
        index += segment_stride(at, w, trace, base, index, count - index);
    }
}

// Puts a module back the way its file has it.
pub(crate) fn unrebase(at: u32, w: &mut [u8], trace: &mut [u8], base: u32)
    ensures { (w.new, trace.new) ≡ (run_t at (unrebase base) (w.old, trace.old)).1 }
{
    move_tables(at, w, trace, false, base);
    unmove_segments(at, w, trace, base);
    move_header(at, w, trace, false, base);
    set_field(at, w, trace, base, FIXED_SIZE, 0);
}
