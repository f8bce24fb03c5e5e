// A new record's named exports in the order of their names. While the image's table is read each export waits in the free bytes after the
// record: two words, where its name stands in the image and its address. So no more room is needed than the record takes, and the names
// are written once, in order.
ghost use Rattle.std.specs.Prelude.{◌≡◌, ℕ, ◌+◌, ◌*◌, ◌/◌, ◌^◌, ◌<◌, ◌≤◌, true, List, length, take};
ghost use Rattle.std.proofs.lemmas.List.Edits.{sets};
ghost use Rattle.window.specs.Name.{no_zero};
ghost use Rattle.register.specs.Words.{flat};
ghost use Rattle.register.specs.Module.{Export, Module};
ghost use Rattle.register.specs.Encode.{export_words, export_names};
ghost use Rattle.register.specs.Order.{position_of};
ghost use Rattle.register.specs.Append.Draft.{room_in};
ghost use Rattle.register.specs.declared.append.draft.Draft.{Draft};
ghost use Rattle.linker.specs.Exports.Writing.{Ground};
ghost use Rattle.linker.specs.Exports.Waiting.{Waiting, Inside, Waits, exports_for};
ghost use Rattle.linker.specs.Exports.Gathered.{EndsWithin, Gathered, PutStep};

use register::append::bytes::copy_into;
use register::append::draft;
use register::append::draft::Draft;
use register::append::waiting::insert_waiting;
use register::words::word;
use std::cmp::Ordering;
use window::name::{compare_name_at, peek_name};

// Where the name stands among the exports that wait, by halves.
fn position_of(at: u32, w: &[u8], waiting: &[u8], name: &[u8]) -> Result<usize, usize>
    ensures { (Inside result (length waiting.now / 8))
        × ((xs : List Waiting) → Waits at w.now xs waiting.now → no_zero name.now ≡ true → result ≡ position_of (exports_for at w.now xs) name.now) }
{
    let mut low: usize = 0;
    let mut high = waiting.len() / 8;
    // No slice of keys stands there for `binary_search_by`: they are words, and each key is where its first one says.
    while low < high {
        let middle = low + (high - low) / 2;
        let place = word(waiting, 2 * middle);
        match compare_name_at(at, w, name, place) {
            Ordering::Less => {
                high = middle;
            }
            Ordering::Equal => {
                return Ok(middle);
            }
            Ordering::Greater => {
                low = middle + 1;
            }
        }
    }
    Err(low)
}

// Gives those that wait from `from` on the export of the name at `place`: a later one of the same name replaces the address.
pub(crate) fn put_waiting(
    at: u32,
    w: &[u8],
    place: u32,
    address: u32,
    records: &mut [u8],
    names: &[u8],
    from: usize,
    before: Draft,
) -> Option<Draft>
    requires { (from ≤ before.end) × (before.end ≤ room_in (length records.old)) × (before.last < 2 ^ 32) }
    ensures { (EndsWithin result from (room_in (length records.new)))
        × ((g : Ground) (m : Module) (first : Draft) (exports : List Export) → from ≡ first.end
        → Gathered at w.now g m first exports before records.old names.now
        → PutStep at w.now g m first exports place address result records.old records.new names.now) }
{
    let mut buffer = [0u8; 512];
    let count = peek_name(at, w, place, &mut buffer);
    let end = before.end;
    let to = from + 8 * ((end - from) / 12);
    match position_of(at, w, &records[from..to], &buffer[..count]) {
        Ok(k) => {
            window::store32(records, from + 8 * k + 4, address);
            Some(before)
        }
        Err(k) => {
            if !draft::has_room(records, names, before, count) {
                return None;
            }
            insert_waiting(records, from + 8 * k, to, place, address);
            Some(Draft {
                start: before.start,
                end: end + 12,
                names: before.names,
                last: before.last + count,
            })
        }
    }
}

// Writes the names of those that wait, the last one first, down from `last`. Each one's two words become the three of the record, which
// begin no earlier than those.
pub(crate) fn write_names(at: u32, w: &[u8], waiting: &mut [u8], names: &mut [u8], last: u32)
    ensures { (xs : List Waiting) (first : ℕ) → length waiting.old ≡ 12 * length xs
        → Waits at w.now xs (take (8 * length xs) waiting.old)
        → first + length (export_names (exports_for at w.now xs)) ≡ last
        → (waiting.new ≡ flat (export_words first (exports_for at w.now xs)))
        × (names.new ≡ sets names.old first (export_names (exports_for at w.now xs))) }
{
    let mut buffer = [0u8; 512];
    let mut offset = last;
    for k in (0..waiting.len() / 12).rev() {
        let place = word(waiting, 2 * k);
        let address = word(waiting, 2 * k + 1);
        let count = peek_name(at, w, place, &mut buffer);
        offset = std::num::wrapping_sub_u32(offset, count as u32);
        copy_into(names, offset as usize, &buffer[..count]);
        window::store32(waiting, 12 * k, offset);
        window::store32(waiting, 12 * k + 4, count as u32);
        window::store32(waiting, 12 * k + 8, address);
    }
}
