// Where each relocated word stands, in the image or in a lent area, and whether it lies there wherever these are.
ghost use Rattle.std.specs.Prelude.{if◌then◌else◌, ◌≡◌, ◌+◌, ◌<◌, leb};
ghost use Rattle.layout.specs.Format.{tag_segment};
ghost use Rattle.history.specs.Image.{count, externals, internals, file_segment};
ghost use Rattle.writer_spec.specs.Description.{file_of};
ghost use Rattle.writer_spec.specs.Words.{counts, external_in, internal_in, room_of, usable, external_word, internal_word, word_count, number_of_word, place_exists, free, far_inside, word_inside, words_inside};

use crate::bytes;
use crate::bytes::{EXTERNALS, INTERNALS, SEGMENTS};
use layout::format::{Segment, SegmentTag, SegmentType};
use writer_spec::words::{Room, WordPlace};

// Whether a relocation kind is one of those that count.
fn counts(kinds: &[u8], kind: u8) -> bool
    ensures { result ≡ counts kinds.now kind }
{
    // `contains` looks at many elements at once, which takes longer where there are three.
    kinds.iter().any(|k| *k == kind)
}

// The word at offset t of a segment, written by the external table.
fn external_in(kind: SegmentType, offset: u32, t: u32) -> WordPlace
    ensures { result ≡ external_in kind offset t }
{
    match kind {
        SegmentType::Code | SegmentType::RoData => {
            WordPlace::InImage((offset as usize) + (t as usize))
        }
        SegmentType::Data => WordPlace::InData(t),
        SegmentType::Bss => WordPlace::InBss(t),
    }
}

// And by the internal table, which writes into Data from the last Data segment on: one function of both would ask which table in that arm.
fn internal_in(kind: SegmentType, offset: u32, last: u32, t: u32) -> WordPlace
    ensures { result ≡ internal_in kind offset last t }
{
    match kind {
        SegmentType::Code | SegmentType::RoData => {
            WordPlace::InImage((offset as usize) + (t as usize))
        }
        SegmentType::Data => WordPlace::InImage((last as usize) + (t as usize)),
        SegmentType::Bss => WordPlace::InBss(t),
    }
}

// What the segments of an image of `size` bytes ask for.
pub fn room_of(bytes: &[u8], size: u32) -> Room
    ensures { result ≡ room_of (file_of bytes.now) size }
{
    let mut room = Room {
        size,
        data_size: 0,
        bss_size: 0,
        last_data: 0,
    };
    for i in 0..SEGMENTS.count(bytes) {
        let s = bytes::segment(bytes, i);
        match s.kind {
            SegmentType::Data => {
                room.data_size = room.data_size.max(s.size);
                if s.size != 0 {
                    room.last_data = s.offset;
                }
            }
            SegmentType::Bss => {
                room.bss_size = room.bss_size.max(s.size);
            }
            SegmentType::Code | SegmentType::RoData => {}
        }
    }
    room
}

// A tag's segment, if it exists and has the tag's offset.
#[tactic(auto, unfolding(writer_spec::specs::Words::usable))]
fn segment_of(bytes: &[u8], tag: u32) -> Option<Segment>
    ensures { result ≡ (if usable (file_of bytes.now) tag then Some (file_segment (file_of bytes.now) (tag_segment tag)) else None) }
{
    let segment = SegmentTag(tag).segment();
    if segment < SEGMENTS.count(bytes) {
        let s = bytes::segment(bytes, segment);
        if SegmentTag(tag).offset() < s.size {
            return Some(s);
        }
    }
    None
}

// Whether a tag's segment exists and has its offset.
pub fn usable(bytes: &[u8], tag: u32) -> bool
    ensures { result ≡ usable (file_of bytes.now) tag }
{
    segment_of(bytes, tag).is_some()
}

// The relocated words of a file: its bytes, the relocation kinds that write a word, what its segments ask for, and how many entries its two tables
// of relocations have. The kinds are numbers, as the tables have them, and any set of them may be asked about (docs/PROOFS.md, C15).
#[derive(Clone, Copy)]
pub(crate) struct Words<'a> {
    pub(crate) bytes: &'a [u8],
    pub(crate) kinds: &'a [u8],
    pub(crate) room: Room,
    pub(crate) external_count: u32,
    pub(crate) internal_count: u32,
    ghost externals_counted: { external_count ≡ count (file_of bytes.now) externals },
    ghost internals_counted: { internal_count ≡ count (file_of bytes.now) internals },
}

impl<'a> Words<'a> {
    // The word of entry i of the external table.
    #[tactic(auto, unfolding(writer_spec::specs::Words::external_word, history::specs::Image::kind, history::specs::Image::tag))]
    fn external(&self, i: u32) -> WordPlace
        ensures { result ≡ external_word (file_of self.now.bytes.now) self.now.kinds.now i }
    {
        let at = EXTERNALS.entry(self.bytes, i);
        if !counts(self.kinds, bytes::byte(self.bytes, at + 4)) {
            return WordPlace::Nowhere;
        }
        let tag = bytes::word(self.bytes, at);
        match segment_of(self.bytes, tag) {
            Some(s) => external_in(s.kind, s.offset, SegmentTag(tag).offset()),
            None => WordPlace::Nowhere,
        }
    }

    // The word of entry i of the internal table.
    #[tactic(auto, unfolding(writer_spec::specs::Words::internal_word, history::specs::Image::kind, history::specs::Image::tag, history::specs::Image::symbol_segment))]
    fn internal(&self, i: u32) -> WordPlace
        ensures { result ≡ internal_word (file_of self.now.bytes.now) self.now.kinds.now self.now.room.last_data i }
    {
        let at = INTERNALS.entry(self.bytes, i);
        if !counts(self.kinds, bytes::byte(self.bytes, at + 4)) {
            return WordPlace::Nowhere;
        }
        if SEGMENTS.count(self.bytes) <= (bytes::byte(self.bytes, at + 5) as u32) {
            return WordPlace::Nowhere;
        }
        let tag = bytes::word(self.bytes, at);
        match segment_of(self.bytes, tag) {
            Some(s) => internal_in(
                s.kind,
                s.offset,
                self.room.last_data,
                SegmentTag(tag).offset(),
            ),
            None => WordPlace::Nowhere,
        }
    }

    // How many entries the two tables of relocations have.
    #[tactic(auto, unfolding(writer_spec::specs::Words::word_count))]
    pub(crate) fn count(&self) -> usize
        ensures { result ≡ word_count (file_of self.now.bytes.now) }
    {
        (self.external_count as usize) + (self.internal_count as usize)
    }

    // The word of entry i of both tables, one after the other.
    #[tactic(auto, unfolding(writer_spec::specs::Words::number_of_word, writer_spec::specs::Words::word_count))]
    pub(crate) fn get(&self, i: usize) -> WordPlace
        requires { i < word_count (file_of self.now.bytes.now) }
        ensures { result ≡ number_of_word (file_of self.now.bytes.now) self.now.kinds.now self.now.room.last_data i }
    {
        let external = self.external_count as usize;
        if i < external {
            self.external(i as u32)
        } else {
            self.internal((i - external) as u32)
        }
    }
}

// How many addresses image, data and bss fill.
fn filled(room: Room) -> usize
    ensures { result ≡ room.size + (room.data_size + room.bss_size) }
{
    (room.size as usize) + ((room.data_size as usize) + (room.bss_size as usize))
}

// Whether image, data and bss fit between 0 and 2^32 - 1.
#[tactic(auto, unfolding(writer_spec::specs::Words::place_exists))]
pub fn place_exists(room: Room) -> bool
    ensures { result ≡ place_exists room }
{
    filled(room) + 2 <= 0x1_0000_0000
}

// The addresses that no place fills.
pub(crate) fn free(room: Room) -> usize
    ensures { result ≡ free room }
{
    0x1_0000_0000usize.saturating_sub(filled(room))
}

// Whether the four bytes from c on end at `end` or before.
pub(crate) fn ends_by(c: usize, end: usize) -> bool
    ensures { result ≡ leb (c + 4) end }
{
    4 <= end && c <= end - 4
}

// Whether a word e bytes past the image's end lies in the lent areas wherever they are.
#[tactic(auto, unfolding(writer_spec::specs::Words::far_inside))]
fn far_inside(room: Room, e: usize) -> bool
    ensures { result ≡ far_inside room e }
{
    let free = free(room);
    free <= e
        && ends_by(e, room.data_size as usize)
        && (ends_by(e, room.bss_size as usize) || (room.bss_size as usize) + free <= e)
}

// Whether a word lies in its area in each place.
#[tactic(auto, unfolding(writer_spec::specs::Words::word_inside))]
fn word_inside(room: Room, word: WordPlace) -> bool
    ensures { result ≡ word_inside room word }
{
    match word {
        WordPlace::InImage(c) => {
            let size = room.size as usize;
            if c <= size {
                ends_by(c, size)
            } else {
                far_inside(room, c - size)
            }
        }
        WordPlace::InData(t) => ends_by(t as usize, room.data_size as usize),
        WordPlace::InBss(t) => ends_by(t as usize, room.bss_size as usize),
        WordPlace::Nowhere => true,
    }
}

// Whether each word does.
pub(crate) fn words_inside(words: &Words) -> bool
    ensures { result ≡ words_inside (file_of words.now.bytes.now) words.now.kinds.now words.now.room }
{
    (0..words.count()).all(|i| word_inside(words.room, words.get(i)))
}
