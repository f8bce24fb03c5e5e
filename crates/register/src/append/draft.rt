// The record that is being written.
ghost use Rattle.std.specs.Prelude.{◌≡◌, ◌+◌, ◌*◌, ◌<◌, ◌≤◌, length, nat_le};
ghost use Rattle.register.specs.Append.Draft.{room_in, push_word, opened, count_up, push_listed, export_fits, finish_record, given_up};

use crate::append::bytes;

// Where a record's words and names begin and end in the two buffers.
#[derive(Clone, Copy)]
pub struct Draft {
    pub start: usize,
    pub end: usize,
    pub names: usize,
    pub last: usize,
}

// Writes a word at the record's end.
fn push_word(records: &mut [u8], draft: Draft, value: u32) -> Option<Draft>
    ensures { (result, records.new) ≡ push_word records.old draft value }
{
    let free = bytes::room(records.len());
    let end = draft.end;
    if free < 4 {
        return None;
    }
    if free - 4 < end {
        return None;
    }
    window::store32(records, end, value);
    Some(Draft {
        start: draft.start,
        end: end + 4,
        names: draft.names,
        last: draft.last,
    })
}

// Whether the record's first eight words come before its end, its end is in the buffer, and its names' end is a word.
pub fn is_open(records: &[u8], draft: Draft) -> bool
    ensures { result ≡ opened draft records.now }
{
    if !bytes::fits(draft.end, draft.start, 32) {
        return false;
    }
    if bytes::room(records.len()) < draft.end {
        return false;
    }
    draft.last <= 0xFFFF_FFFF
}

// Adds one to word number `field` of the record.
fn count_up(records: &mut [u8], draft: Draft, field: usize)
    requires { (field < 8) × (draft.start + 32 ≤ length records.old) }
    ensures { records.new ≡ count_up records.old draft field }
{
    let place = draft.start + 4 * field;
    let count = window::load32(records, place);
    window::store32(records, place, std::num::wrapping_add_u32(count, 1));
}

// Writes an address at the record's end and counts it in word number `field`.
fn push_listed(records: &mut [u8], draft: Draft, field: usize, address: u32) -> Option<Draft>
    requires { field < 8 }
    ensures { (result, records.new) ≡ push_listed records.old draft field address }
{
    if !is_open(records, draft) {
        return None;
    }
    let next = push_word(records, draft, address)?;
    count_up(records, next, field);
    Some(next)
}

// Writes an address of a segment; no export stands yet.
pub fn push_segment(records: &mut [u8], draft: Draft, address: u32) -> Option<Draft>
    ensures { (result, records.new) ≡ push_listed records.old draft 5 address }
{
    push_listed(records, draft, 5, address)
}

// Writes an address of an indexed export; all named ones stand.
pub fn push_indexed(records: &mut [u8], draft: Draft, address: u32) -> Option<Draft>
    ensures { (result, records.new) ≡ push_listed records.old draft 7 address }
{
    push_listed(records, draft, 7, address)
}

// Whether there is room for an export whose name has `count` bytes.
pub fn has_room(records: &[u8], names: &[u8], draft: Draft, count: usize) -> bool
    ensures { result ≡ export_fits records.now names.now draft count }
{
    if !bytes::fits(bytes::room(records.len()), draft.end, 12) {
        return false;
    }
    bytes::fits(bytes::room(names.len()), draft.last, count)
}

// Whether there is room for so many words more.
pub fn has_words(records: &[u8], draft: Draft, count: u32) -> bool
    ensures { result ≡ nat_le (draft.end + 4 * count) (room_in (length records.now)) }
{
    bytes::fits(bytes::room(records.len()), draft.end, 4 * (count as usize))
}

// Counts the record in the header: it stands.
pub fn finish_record(records: &mut [u8], draft: Draft)
    ensures { records.new ≡ finish_record records.old draft }
{
    if !is_open(records, draft) {
        return;
    }
    let count = window::load32(records, 0);
    window::store32(records, 0, std::num::wrapping_add_u32(count, 1));
    window::store32(records, 12, draft.end as u32);
    window::store32(records, 16, draft.last as u32);
}

// Gives the record up: its bytes are free, and 0, again.
pub fn give_up(records: &mut [u8], names: &mut [u8], draft: Draft)
    ensures { (records.new, names.new) ≡ given_up records.old names.old draft }
{
    bytes::clear(records, draft.start, draft.end);
    bytes::clear(names, draft.names, draft.last);
}
