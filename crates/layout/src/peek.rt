// Words, fields, segments and tags for readers that are no steps: what their reads touch is nobody's, so they drop the trace.
ghost use Rattle.std.specs.Prelude.{◌≡◌};
ghost use Rattle.window.specs.Memory.{word_at};
ghost use Rattle.window.specs.Access.{run};
ghost use Rattle.layout.specs.Segments.{field, segment, tag_to_address};

use crate::format::{Segment, SegmentTag};
use crate::{fields, segments};

// The word at x.
pub fn word(at: u32, w: &[u8], x: u32) -> u32
    ensures { result ≡ word_at at w.now x }
{
    let mut trace = [0u8; 16];
    window::read32(at, w, &mut trace[..], x)
}

// A header field of the module at base.
pub fn field(at: u32, w: &[u8], base: u32, offset: u32) -> u32
    ensures { result ≡ (run at (field base offset) w.now).0 }
{
    let mut trace = [0u8; 16];
    fields::field(at, w, &mut trace[..], base, offset)
}

pub fn segment(at: u32, w: &[u8], base: u32, index: u32) -> Option<Segment>
    ensures { result ≡ (run at (segment base index) w.now).0 }
{
    let mut trace = [0u8; 16];
    segments::segment(at, w, &mut trace[..], base, index)
}

pub fn tag_to_address(at: u32, w: &[u8], base: u32, tag: SegmentTag) -> Option<u32>
    ensures { result ≡ (run at (tag_to_address base tag.0) w.now).0 }
{
    let mut trace = [0u8; 16];
    segments::tag_to_address(at, w, &mut trace[..], base, tag)
}
