// The name offsets of records fall when names before them leave.
ghost use Rattle.std.specs.Prelude.{◌≡◌, ◌+◌, ◌-◌, ◌*◌, ◌≤◌, length};
ghost use Rattle.window.specs.Word.{word_in};
ghost use Rattle.register.specs.Words.{flat};
ghost use Rattle.register.specs.Encode.{record_words};
ghost use Rattle.register.specs.Change.Bytes.{lower_word, lower_exports, lower_record};
ghost use Rattle.register.specs.Change.Lower.{RecordsFrom};

use crate::record;

// Lowers the word at `place` by d.
pub(crate) fn lower_word(bytes: &mut [u8], place: usize, d: u32)
    requires { place + 4 ≤ length bytes.old }
    ensures { bytes.new ≡ lower_word bytes.old place d }
{
    let value = window::load32(bytes, place);
    window::store32(bytes, place, std::num::wrapping_sub_u32(value, d));
}

// Lowers the name offsets of `count` exports from `place` on.
fn lower_exports(bytes: &mut [u8], place: usize, count: u32, d: u32)
    requires { place + 12 * count ≤ length bytes.old }
    ensures { bytes.new ≡ lower_exports count bytes.old place d }
{
    for k in 0..count as usize {
        lower_word(bytes, place + 12 * k, d);
    }
}

// Lowers the name offsets of the record at `place`: its own and its exports'.
fn lower_record(bytes: &mut [u8], place: usize, d: u32)
    requires { place + 4 * (8 + word_in bytes.old (place + 20)) + 12 * word_in bytes.old (place + 24) ≤ length bytes.old }
    ensures { bytes.new ≡ lower_record bytes.old place d }
{
    let first = place + 4 * (8 + (window::load32(bytes, place + 20) as usize));
    let count = window::load32(bytes, place + 24);
    lower_word(bytes, place + 12, d);
    lower_exports(bytes, first, count, d);
}

// Lowers the name offsets of records, one after another to the end of the bytes.
pub(crate) fn lower_records(bytes: &mut [u8], d: u32)
    requires { RecordsFrom d bytes.old }
    ensures { (s : RecordsFrom d bytes.old) → bytes.new ≡ flat (record_words (s.from - d) s.modules) }
{
    let mut place: usize = 0;
    // No range gives the places: a turn goes on by the size of its record.
    while place < bytes.len() {
        let size = 4 * record::module_size(&bytes[place..]);
        lower_record(bytes, place, d);
        place += size;
    }
}
