// A record that leaves: the gaps in records and names are closed, and the name offsets after it fall.
ghost use Rattle.std.specs.Prelude.{◌≡◌, ◌+◌, ◌-◌, ◌^◌, ◌<◌, ◌≤◌, length};
ghost use Rattle.window.specs.Word.{word_in};
ghost use Rattle.register.specs.Words.{part, flat};
ghost use Rattle.register.specs.Encode.{record_words};
ghost use Rattle.register.specs.Change.Bytes.{names_end, lower_header, cut_record};
ghost use Rattle.register.specs.Change.Lower.{RecordsFrom};
ghost use Rattle.register.specs.Change.Remove.{RecordOfRegister, remaining};

use crate::change::{gap, lower};
use crate::record;

// Where the names end of the record before `next`: at the next record's own, or with the last ones.
fn names_end(records: &[u8], next: usize) -> u32
    requires { (32 ≤ length records.now) × (next < word_in records.now 12 → next + 16 ≤ length records.now) }
    ensures { result ≡ names_end records.now next }
{
    if next < (window::load32(records, 12) as usize) {
        return window::load32(records, next + 12);
    }
    window::load32(records, 16)
}

// The header counts a record less, `size` record bytes less and `gap` name bytes less.
fn lower_header(records: &mut [u8], size: u32, gap: u32)
    requires { 32 ≤ length records.old }
    ensures { records.new ≡ lower_header records.old size gap }
{
    lower::lower_word(records, 0, 1);
    lower::lower_word(records, 12, size);
    lower::lower_word(records, 16, gap);
}

// Takes the record of `size` bytes at `place` out of the records; `gap` name bytes leave with it.
fn cut_record(records: &mut [u8], place: usize, size: usize, gap: u32)
    requires { (32 ≤ length records.old) × (size < 2 ^ 32) × (place + size ≤ word_in records.old 12) × (word_in records.old 12 ≤ length records.old)
        × RecordsFrom gap (part records.old (place + size) (word_in records.old 12 - (place + size))) }
    ensures { (s : RecordsFrom gap (part records.old (place + size) (word_in records.old 12 - (place + size))))
        → records.new ≡ cut_record records.old place size gap (flat (record_words (s.from - gap) s.modules)) }
{
    let next = place + size;
    let used = window::load32(records, 12) as usize;
    lower::lower_records(&mut records[next..used], gap);
    gap::close_gap(records, place, size);
    lower_header(records, size as u32, gap);
}

// Removes the record whose words begin at `place`.
pub fn remove_record(records: &mut [u8], names: &mut [u8], place: usize)
    requires { RecordOfRegister records.old names.old place }
    ensures { (s : RecordOfRegister records.old names.old place)
        → (records.new, names.new) ≡ remaining s }
{
    let size = 4 * record::module_size(&records[place..]);
    let first = window::load32(records, place + 12);
    let gap = names_end(records, place + size) - first;
    cut_record(records, place, size, gap);
    gap::close_gap(names, first as usize, gap as usize);
}
