// Reading a register: one record by its place in the records buffer here, the records in load order in `modules`.
// Nothing here writes, and a function without a `requires` ends on any bytes.
pub mod modules;

ghost use Rattle.std.specs.Prelude.{◌≡◌, ℕ, ◌%◌, ◌^◌, List, drop};
ghost use Rattle.register.specs.Words.{part, words_in};
ghost use Rattle.register.specs.Read.Read.{record_at, record_end, module_at, export_of, entry_of, Sorted};

use crate::{exports, words};

// The first words of a module's record, and the byte of the records buffer where it begins.
#[derive(Clone, Copy)]
pub struct Record {
    pub place: usize,
    pub base: u32,
    pub size: u32,
    pub auto_link: u32,
    pub name_offset: u32,
    pub name_length: u32,
    pub segments: u32,
    pub named: u32,
    pub indexed: u32,
}

// The bytes from a place on; none past their end.
fn bytes_from(bytes: &[u8], place: usize) -> &[u8]
    ensures { result.now ≡ drop place bytes.now }
{
    let n = bytes.len();
    if n < place {
        return &bytes[n..];
    }
    &bytes[place..]
}

// `count` bytes from a place on, as far as there are bytes.
fn bytes_at(bytes: &[u8], place: usize, count: usize) -> &[u8]
    ensures { result.now ≡ part bytes.now place count }
{
    let rest = bytes_from(bytes, place);
    if rest.len() < count {
        return rest;
    }
    &rest[..count]
}

// The record that begins at a place.
pub fn record_at(records: &[u8], place: usize) -> Record
    ensures { result ≡ record_at records.now place }
{
    let rest = bytes_from(records, place);
    Record {
        place,
        base: words::word(rest, 0),
        size: words::word(rest, 1),
        auto_link: words::word(rest, 2),
        name_offset: words::word(rest, 3),
        name_length: words::word(rest, 4),
        segments: words::word(rest, 5),
        named: words::word(rest, 6),
        indexed: words::word(rest, 7),
    }
}

// Where the record after it begins, wrapping at 2^64.
pub fn record_end(record: Record) -> usize
    ensures { result ≡ record_end «record» % 2 ^ 64 }
{
    let segments = record.segments as usize;
    let named = record.named as usize;
    let indexed = record.indexed as usize;
    std::num::wrapping_add_usize(record.place, 4 * (8 + (segments + (3 * named + indexed))))
}

// The module's own name.
pub fn record_name(names: &[u8], record: Record) -> &[u8]
    ensures { result.now ≡ part names.now «record».name_offset «record».name_length }
{
    words::name_part(names, record.name_offset, record.name_length)
}

// The address of the export of that name of the record at a place.
pub fn export_named(records: &[u8], names: &[u8], place: usize, name: &[u8]) -> Option<u32>
    requires { Sorted records.now names.now place }
    ensures { result ≡ export_of (module_at records.now names.now place) name.now }
{
    let rest = bytes_from(records, place);
    let from = 4 * (8 + (words::word(rest, 5) as usize));
    let list = bytes_at(rest, from, 12 * (words::word(rest, 6) as usize));
    let k = exports::search_export(list, names, name)?;
    Some(words::word(list, 3 * k + 2))
}

// Word number `index` of a list of words.
fn entry_of(list: &[u8], index: u32) -> Option<u32>
    ensures { result ≡ entry_of (words_in list.now) index }
{
    let i = index as usize;
    if list.len() / 4 <= i {
        return None;
    }
    Some(words::word(list, i))
}

// The address of an indexed export of the record at a place.
pub fn export_indexed(records: &[u8], place: usize, index: u32) -> Option<u32>
    ensures { (names : List ℕ) → result ≡ entry_of (module_at records.now names place).indexed index }
{
    let rest = bytes_from(records, place);
    let segments = words::word(rest, 5) as usize;
    let named = words::word(rest, 6) as usize;
    let count = words::word(rest, 7) as usize;
    entry_of(
        bytes_at(rest, 4 * (8 + (segments + 3 * named)), 4 * count),
        index,
    )
}

// The address of a segment of the record at a place.
pub fn segment_address(records: &[u8], place: usize, index: u32) -> Option<u32>
    ensures { (names : List ℕ) → result ≡ entry_of (module_at records.now names place).segments index }
{
    let rest = bytes_from(records, place);
    let count = words::word(rest, 5) as usize;
    entry_of(bytes_at(rest, 32, 4 * count), index)
}
