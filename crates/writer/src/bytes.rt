// A description or an image read by offsets: bytes, words, entries of its tables and segments. Past the end all bytes are 0.
ghost use Rattle.std.specs.Prelude.{◌≡◌, ◌+◌, ◌-◌, ◌^◌, ◌<◌, ◌≤◌, length};
ghost use Rattle.window.specs.Mirror.{word};
ghost use Rattle.history.specs.Image.{start, count, entry, file_segment};
ghost use Rattle.writer_spec.specs.Description.{file_of, table_at};

use layout::format::{Segment, SegmentType};
use layout::{format, header};

#[tactic(auto, unfolding(writer_spec::specs::Description::file_of))]
pub fn byte(bytes: &[u8], o: usize) -> u8
    ensures { result ≡ file_of bytes.now o }
{
    if o < bytes.len() {
        return bytes[o];
    }
    0
}

// The last bytes of `bytes`, fewer than four, as the low bytes of a word.
fn last_word(bytes: &[u8], o: usize) -> u32
    requires o_in_bounds { o < length bytes.now }
    requires bytes_len_bound { length bytes.now < o + 4 }
    ensures { result ≡ word (file_of bytes.now) o }
{
    let left = bytes.len() - o;
    let low = bytes[o] as u32;
    if left == 1 {
        return low;
    }
    let second = bytes[o + 1] as u32;
    if left == 2 {
        return low + 256 * second;
    }
    low + 256 * (second + 256 * (bytes[o + 2] as u32))
}

pub fn word(bytes: &[u8], o: usize) -> u32
    ensures { result ≡ word (file_of bytes.now) o }
{
    if bytes.len() <= o {
        return 0;
    }
    if 4 <= bytes.len() - o {
        return window::load32(bytes, o);
    }
    last_word(bytes, o)
}

// The count of the table whose offset stands at `field`.
pub fn count(bytes: &[u8], field: u32) -> u32
    ensures { result ≡ word (file_of bytes.now) (field + 4) }
{
    word(bytes, (field as usize) + 4)
}

// A table of the file: where its offset stands in the header, its count being the next word, and how many bytes an entry has.
#[derive(Clone, Copy)]
pub struct EntryTable {
    pub field: u32,
    pub width: u32,
}

pub const SEGMENTS: EntryTable = EntryTable {
    field: header::SEGMENT_TABLE_OFFSET,
    width: format::SEGMENT_ENTRY_SIZE,
};

pub const NAMED_EXPORTS: EntryTable = EntryTable {
    field: header::EXPORT_NAMED_SYMBOL_TABLE_OFFSET,
    width: format::EXPORT_NAMED_SYMBOL_ENTRY_SIZE,
};

pub const INDEXED_EXPORTS: EntryTable = EntryTable {
    field: header::EXPORT_INDEXED_SYMBOL_TABLE_OFFSET,
    width: format::EXPORT_INDEXED_SYMBOL_ENTRY_SIZE,
};

pub const MODULE_ENTRIES: EntryTable = EntryTable {
    field: header::IMPORT_MODULE_TABLE_OFFSET,
    width: format::IMPORT_MODULE_ENTRY_SIZE,
};

pub const EXTERNALS: EntryTable = EntryTable {
    field: header::EXTERNAL_RELOCATION_TABLE_OFFSET,
    width: format::RELOCATION_ENTRY_SIZE,
};

pub const NAMED_IMPORTS: EntryTable = EntryTable {
    field: header::IMPORT_NAMED_SYMBOL_TABLE_OFFSET,
    width: format::IMPORT_NAMED_SYMBOL_ENTRY_SIZE,
};

pub const INDEXED_IMPORTS: EntryTable = EntryTable {
    field: header::IMPORT_INDEXED_SYMBOL_TABLE_OFFSET,
    width: format::IMPORT_INDEXED_SYMBOL_ENTRY_SIZE,
};

pub const ANONYMOUS_IMPORTS: EntryTable = EntryTable {
    field: header::IMPORT_ANONYMOUS_SYMBOL_TABLE_OFFSET,
    width: format::IMPORT_ANONYMOUS_SYMBOL_ENTRY_SIZE,
};

pub const INTERNALS: EntryTable = EntryTable {
    field: header::INTERNAL_RELOCATION_TABLE_OFFSET,
    width: format::RELOCATION_ENTRY_SIZE,
};

impl EntryTable {
    #[tactic(auto, unfolding(history::specs::Image::start))]
    pub fn start(self, bytes: &[u8]) -> u32
        ensures { result ≡ start (file_of bytes.now) (table_at self.field self.width) }
    {
        word(bytes, self.field as usize)
    }

    #[tactic(auto, unfolding(history::specs::Image::count))]
    pub fn count(self, bytes: &[u8]) -> u32
        ensures { result ≡ count (file_of bytes.now) (table_at self.field self.width) }
    {
        count(bytes, self.field)
    }

    // The offset of entry i.
    #[tactic(auto, unfolding(history::specs::Image::entry))]
    pub fn entry(self, bytes: &[u8], i: u32) -> usize
        ensures place { result ≡ entry (file_of bytes.now) (table_at self.field self.width) i }
        ensures fits { result ≤ 2 ^ 64 - 2 ^ 32 }
    {
        (self.start(bytes) as usize) + (i as usize) * (self.width as usize)
    }

    // The word at `o` of entry i.
    pub fn entry_word(self, bytes: &[u8], i: u32, o: u32) -> u32
        ensures { result ≡ word (file_of bytes.now) (entry (file_of bytes.now) (table_at self.field self.width) i + o) }
    {
        word(bytes, self.entry(bytes, i) + (o as usize))
    }
}

#[tactic(auto, unfolding(history::specs::Image::file_segment))]
pub fn segment(bytes: &[u8], i: u32) -> Segment
    ensures { result ≡ file_segment (file_of bytes.now) i }
{
    let at = SEGMENTS.entry(bytes, i);
    Segment {
        offset: word(bytes, at),
        size: word(bytes, at + 4),
        kind: SegmentType::from(word(bytes, at + 8)),
    }
}
