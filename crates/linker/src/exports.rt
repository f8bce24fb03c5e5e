// A module's exports, read from its image into a new record of the register. The image is only read; the record is written
// step by step after the last one, and given up where it has no room.
ghost use Rattle.std.specs.Prelude.{◌≡◌, ℕ, ◌+◌, ◌^◌, ◌<◌, ◌≤◌, true, List, [], length, Some};
ghost use Rattle.window.specs.Access.{run};
ghost use Rattle.layout.specs.Header.{export_named_symbol_table_offset, export_indexed_symbol_table_offset};
ghost use Rattle.register.specs.Decode.{is_register, register_of};
ghost use Rattle.register.specs.Module.{Module};
ghost use Rattle.register.specs.Change.{with_named, appended};
ghost use Rattle.register.specs.Append.Draft.{room_in};
ghost use Rattle.register.specs.declared.append.draft.Draft.{Draft};
ghost use Rattle.register.specs.Read.Read.{Encoded};
ghost use Rattle.linker_spec.specs.Exports.{named_exports, indexed_exports, read_segments, read_module};
ghost use Rattle.linker.specs.Record.Read.{header_word, segments_to, named_to, indexed_to};
ghost use Rattle.linker.specs.Exports.Modules.{with_segments, with_indexeds, DraftStep, Bare, Unindexed, EmptyModule, AnyModule};
ghost use Rattle.linker.specs.Exports.Writing.{Ground, Writing};
ghost use Rattle.linker.specs.Exports.Gathered.{EndsWithin, Gathered, GatherStep, GatheredAll};
ghost use Rattle.linker.specs.Exports.Exported.{register_in, entry_answer, exported, register_with};

use crate::record::{at_most_16, begin, indexed_address, keep_or_give_up, segment_offset};
use crate::sorted;
use crate::waiting::{put_waiting, write_names};
use layout::fields::entry_address;
use layout::format::{
    EXPORT_INDEXED_SYMBOL_ENTRY_SIZE, EXPORT_NAMED_SYMBOL_ENTRY_SIZE, SegmentTag,
};
use layout::{header, peek};
use register::append::bytes::{clear, fits, room};
use register::append::draft;
use register::append::draft::Draft;
use window::outside::stride;

// Adds segment i.
fn add_segment(
    at: u32,
    w: &[u8],
    base: u32,
    i: u32,
    records: &mut [u8],
    names: &mut [u8],
    before: Draft,
) -> Option<Draft>
    ensures { DraftStep Bare (λ m. with_segments m (segments_to at w.now base i))
        (λ m. with_segments m (segments_to at w.now base (i + 1)))
        before records.old names.old result records.new names.new }
{
    let address = segment_offset(at, w, base, i);
    let after = draft::push_segment(records, before, address);
    keep_or_give_up(records, names, before, after)
}

// Adds the segments.
fn add_segments(
    at: u32,
    w: &[u8],
    base: u32,
    records: &mut [u8],
    names: &mut [u8],
    before: Draft,
) -> Option<Draft>
    ensures { DraftStep Bare (λ m. with_segments m []) (λ m. with_segments m (run at (read_segments base) w.now).0)
        before records.old names.old result records.new names.new }
{
    let count = at_most_16(peek::field(at, w, base, header::SEGMENT_NUM));
    let mut last = before;
    for i in 0..count {
        last = add_segment(at, w, base, i, records, names, last)?;
    }
    Some(last)
}

// Adds the indexed export of entry i.
fn add_indexed(
    at: u32,
    w: &[u8],
    base: u32,
    table: u32,
    i: u32,
    records: &mut [u8],
    names: &mut [u8],
    before: Draft,
) -> Option<Draft>
    ensures { table ≡ header_word at w.now base export_indexed_symbol_table_offset
        → DraftStep AnyModule (λ m. with_indexeds m (indexed_to at w.now base i)) (λ m. with_indexeds m (indexed_to at w.now base (i + 1)))
        before records.old names.old result records.new names.new }
{
    let entry = entry_address(table, i, EXPORT_INDEXED_SYMBOL_ENTRY_SIZE);
    let address = indexed_address(at, w, base, entry);
    let after = draft::push_indexed(records, before, address);
    keep_or_give_up(records, names, before, after)
}

// Adds the indexed exports. Each takes a word, so where so many words have no room none is looked at.
fn add_all_indexed(
    at: u32,
    w: &[u8],
    base: u32,
    records: &mut [u8],
    names: &mut [u8],
    before: Draft,
) -> Option<Draft>
    ensures { DraftStep AnyModule (λ m. with_indexeds m []) (λ m. with_indexeds m (run at (indexed_exports base) w.now).0)
        before records.old names.old result records.new names.new }
{
    let table = peek::field(at, w, base, header::EXPORT_INDEXED_SYMBOL_TABLE_OFFSET);
    let count = peek::field(at, w, base, header::EXPORT_INDEXED_SYMBOL_NUM);
    if !draft::has_words(records, before, count) {
        draft::give_up(records, names, before);
        return None;
    }
    let mut last = before;
    for i in 0..count {
        last = add_indexed(at, w, base, table, i, records, names, last)?;
    }
    Some(last)
}

// Gathers the named export of entry i, if its tag gives an address.
fn gather_named(
    at: u32,
    w: &[u8],
    base: u32,
    table: u32,
    i: u32,
    records: &mut [u8],
    names: &[u8],
    from: usize,
    before: Draft,
) -> Option<Draft>
    requires { (from ≤ before.end) × (before.end ≤ room_in (length records.old)) × (before.last < 2 ^ 32) }
    ensures { (EndsWithin result from (room_in (length records.new)))
        × (table ≡ header_word at w.now base export_named_symbol_table_offset
        → (g : Ground) (m : Module) (first : Draft) → from ≡ first.end
        → Gathered at w.now g m first (named_to at w.now base i) before records.old names.now
        → GatherStep at w.now g m first (named_to at w.now base (i + 1)) result records.old records.new names.now) }
{
    let entry = entry_address(table, i, EXPORT_NAMED_SYMBOL_ENTRY_SIZE);
    let place = peek::word(at, w, entry);
    let tag = SegmentTag(peek::word(at, w, std::num::wrapping_add_u32(entry, 4)));
    match peek::tag_to_address(at, w, base, tag) {
        None => Some(before),
        Some(address) => put_waiting(at, w, place, address, records, names, from, before),
    }
}

// Gathers the named exports after a record that has none, each put where its name stands; where they have no room the record is given up.
fn insert_all_named(
    at: u32,
    w: &[u8],
    base: u32,
    records: &mut [u8],
    names: &mut [u8],
    first: Draft,
) -> Option<Draft>
    requires { (first.end ≤ room_in (length records.old)) × (first.last < 2 ^ 32) }
    ensures { (EndsWithin result first.end (room_in (length records.new)))
        × ((g : Ground) (m : Module) → Bare m → Writing g m (Some first) records.old names.old
        → GatheredAll at w.now g m first (run at (named_exports base) w.now).0 result records.new names.new) }
{
    let table = peek::field(at, w, base, header::EXPORT_NAMED_SYMBOL_TABLE_OFFSET);
    let count = peek::field(at, w, base, header::EXPORT_NAMED_SYMBOL_NUM);
    let mut last = first;
    let mut i: u32 = 0;
    // No range gives the numbers: a turn goes on by its stride.
    while i < count {
        match gather_named(at, w, base, table, i, records, names, first.end, last) {
            None => {
                let written = Draft {
                    start: first.start,
                    end: last.end,
                    names: first.names,
                    last: first.last,
                };
                draft::give_up(records, names, written);
                return None;
            }
            Some(next) => {
                last = next;
            }
        }
        let entry = entry_address(table, i, EXPORT_NAMED_SYMBOL_ENTRY_SIZE);
        i += stride(
            at,
            w.len(),
            entry,
            EXPORT_NAMED_SYMBOL_ENTRY_SIZE,
            count - i,
        );
    }
    Some(last)
}

// Gathers the named exports after a record that has none; where they have no room the record is given up. Where the free bytes
// hold the record of as many exports as the table has entries they are sorted there, else each is put where its name stands.
fn gather_all_named(
    at: u32,
    w: &[u8],
    base: u32,
    records: &mut [u8],
    names: &mut [u8],
    first: Draft,
) -> Option<Draft>
    requires { (first.end ≤ room_in (length records.old)) × (first.last < 2 ^ 32) }
    ensures { (EndsWithin result first.end (room_in (length records.new)))
        × ((g : Ground) (m : Module) → Bare m → Writing g m (Some first) records.old names.old
        → GatheredAll at w.now g m first (run at (named_exports base) w.now).0 result records.new names.new) }
{
    let count = peek::field(at, w, base, header::EXPORT_NAMED_SYMBOL_NUM);
    let size = 12 * (count as usize);
    let from = first.end;
    if !fits(room(records.len()), from, size) {
        return insert_all_named(at, w, base, records, names, first);
    }
    let table = peek::field(at, w, base, header::EXPORT_NAMED_SYMBOL_TABLE_OFFSET);
    let end = from + size;
    let n = sorted::gather(at, w, base, table, 0, count, &mut records[from..end]);
    let to = from + 8 * n;
    let bytes = sorted::names_length(at, w, &records[from..to]);
    if !fits(room(names.len()), first.last, bytes) {
        let written = Draft {
            start: first.start,
            end: end,
            names: first.names,
            last: first.last,
        };
        draft::give_up(records, names, written);
        return None;
    }
    clear(records, to, end);
    Some(Draft {
        start: first.start,
        end: from + 12 * n,
        names: first.names,
        last: first.last + bytes,
    })
}

// Adds the named exports: first all are gathered, then they are written.
fn add_all_named(
    at: u32,
    w: &[u8],
    base: u32,
    records: &mut [u8],
    names: &mut [u8],
    before: Draft,
) -> Option<Draft>
    ensures { DraftStep Unindexed (λ m. with_named m []) (λ m. with_named m (run at (named_exports base) w.now).0)
        before records.old names.old result records.new names.new }
{
    if !draft::is_open(records, before) {
        return None;
    }
    let from = before.end;
    let last = gather_all_named(at, w, base, records, names, before)?;
    let to = last.end;
    write_names(at, w, &mut records[from..to], names, last.last as u32);
    let count = (to - from) / 12;
    window::store32(records, before.start + 24, count as u32);
    Some(last)
}

// Adds segments, named and indexed exports to a record that has its name.
fn add_lists(
    at: u32,
    w: &[u8],
    base: u32,
    records: &mut [u8],
    names: &mut [u8],
    before: Draft,
) -> Option<Draft>
    ensures { DraftStep EmptyModule (λ m. m) (λ m. with_indexeds (with_named (with_segments m (run at (read_segments base) w.now).0)
        (run at (named_exports base) w.now).0) (run at (indexed_exports base) w.now).0)
        before records.old names.old result records.new names.new }
{
    let first = add_segments(at, w, base, records, names, before)?;
    let second = add_all_named(at, w, base, records, names, first)?;
    add_all_indexed(at, w, base, records, names, second)
}

// Reads the module at base into a new record of a register that records and names encode, if there is room.
pub(crate) fn index_exports(
    at: u32,
    w: &[u8],
    records: &mut [u8],
    names: &mut [u8],
    base: u32,
    size: u32,
    auto_link: bool,
) -> Option<()>
    requires { Encoded records.old names.old }
    ensures { let old = register_in records.old names.old in
        let m = (run at (read_module base size auto_link) w.now).0 in
        ((entry_answer (appended old m) result, records.new, names.new) ≡ exported records.old names.old m)
        × ((missing : List ℕ) → is_register records.old names.old missing ≡ true
        → (is_register records.new names.new missing ≡ true)
        × (register_of records.new names.new missing
        ≡ register_with records.old names.old (register_of records.old names.old missing) m)) }
{
    let first = begin(at, w, base, size, auto_link, records, names)?;
    let last = add_lists(at, w, base, records, names, first)?;
    draft::finish_record(records, last);
    Some(())
}
