// Whether a description is packed: its undescribed header bytes, its other tables, and each part right after the one before.
ghost use Rattle.std.specs.Prelude.{◌≡◌, ◌-◌, ◌^◌, ◌<◌, ◌++◌};
ghost use Rattle.layout.specs.Header.{header_size};
ghost use Rattle.history.specs.Image.{segments, count};
ghost use Rattle.writer_spec.specs.Description.{file_of, zeros, header_zeros, others_empty, in_file, block_after, segment_blocks, pair_blocks, packed_from, packed};

use crate::bytes;
use crate::bytes::SEGMENTS;
use layout::format::SegmentType;
use layout::{header, tables};

// Whether all bytes from `from` to `to` are 0.
pub(crate) fn zeros(bytes: &[u8], from: usize, to: usize) -> bool
    ensures { result ≡ zeros (file_of bytes.now) from (to - from) }
{
    (from..to).all(|i| bytes::byte(bytes, i) == 0)
}

// Whether the header bytes that are not described are 0.
#[tactic(auto, unfolding(writer_spec::specs::Description::header_zeros))]
fn header_zeros(bytes: &[u8]) -> bool
    ensures { result ≡ header_zeros (file_of bytes.now) }
{
    zeros(bytes, 0, header::NAME_OFFSET as usize)
        && zeros(bytes, header::NEXT_CRO as usize, header::BSS_SIZE as usize)
        && zeros(
            bytes,
            header::FIXED_SIZE as usize,
            (header::FIXED_SIZE as usize) + 8,
        )
}

// Whether the tables that no description has are empty.
#[tactic(auto, unfolding(writer_spec::specs::Description::others_empty))]
fn others_empty(bytes: &[u8]) -> bool
    ensures { result ≡ others_empty (file_of bytes.now) }
{
    bytes::word(bytes, header::EXPORT_TREE_NUM as usize) == 0
        && bytes::word(bytes, header::STATIC_ANONYMOUS_SYMBOL_NUM as usize) == 0
        && bytes::word(bytes, header::STATIC_RELOCATION_NUM as usize) == 0
}

// The position after a part at `offset`, if it starts at the next multiple of 4 from `pos` on and the bytes before it are 0.
fn block_after(bytes: &[u8], pos: usize, offset: u32, size: usize) -> Option<usize>
    requires { size < 2 ^ 63 }
    ensures { result ≡ block_after (file_of bytes.now) pos offset size }
{
    let at = offset as usize;
    if at % 4 != 0 {
        return None;
    }
    if at < pos {
        return None;
    }
    if 3 < at - pos {
        return None;
    }
    if !zeros(bytes, pos, at) {
        return None;
    }
    Some(at + size)
}

// The position after the segments but Bss.
fn segments_packed(bytes: &[u8]) -> Option<usize>
    ensures { result ≡ packed_from (file_of bytes.now) header_size (segment_blocks (file_of bytes.now) (count (file_of bytes.now) segments) 0) }
{
    let mut pos = header::SIZE as usize;
    for i in 0..SEGMENTS.count(bytes) {
        let s = bytes::segment(bytes, i);
        if in_file(s.kind) {
            pos = block_after(bytes, pos, s.offset, s.size as usize)?;
        }
    }
    Some(pos)
}

// Whether a segment of this kind has bytes in the image.
fn in_file(kind: SegmentType) -> bool
    ensures { result ≡ in_file kind }
{
    !matches!(kind, SegmentType::Bss)
}

// The position after the header's 15 tables and string areas, the first of which follows `start`.
fn tables_packed(bytes: &[u8], start: usize) -> Option<usize>
    ensures { result ≡ packed_from (file_of bytes.now) start (pair_blocks (file_of bytes.now) 15 0) }
{
    let mut pos = start;
    for k in 0..15 {
        let field = header::MODULE_NAME_OFFSET + 8 * k;
        let size = (bytes::count(bytes, field) as usize) * (tables::table_entry_size(k) as usize);
        pos = block_after(bytes, pos, bytes::word(bytes, field as usize), size)?;
    }
    Some(pos)
}

// The position after all of these.
#[tactic(auto, using(crate::proofs::packed::Laws::packed_append))]
fn parts_packed(bytes: &[u8]) -> Option<usize>
    ensures { result ≡ packed_from (file_of bytes.now) header_size (segment_blocks (file_of bytes.now) (count (file_of bytes.now) segments) 0 ++ pair_blocks (file_of bytes.now) 15 0) }
{
    let pos = segments_packed(bytes)?;
    tables_packed(bytes, pos)
}

// Whether the description is packed.
#[tactic(auto, unfolding(writer_spec::specs::Description::packed, writer_spec::specs::Description::packed_to))]
pub fn packed(bytes: &[u8]) -> bool
    ensures { result ≡ packed bytes.now }
{
    header_zeros(bytes)
        && others_empty(bytes)
        && match parts_packed(bytes) {
            Some(end) => end == bytes.len(),
            None => false,
        }
}
