// Number 4's test of the records and their names, one record after another.
ghost use Rattle.std.specs.Prelude.{◌≡◌, ◌/◌, length};
ghost use Rattle.window.specs.Name.{no_zero};
ghost use Rattle.register.specs.Words.{words_in};
ghost use Rattle.register.specs.Check.{name_ok, exports_end, fixed_ok, module_end, modules_ok};

use register::{record, words};

// Whether the bytes have no zero.
pub(crate) fn no_zero(bytes: &[u8]) -> bool
    ensures { result ≡ no_zero bytes.now }
{
    let mut none = true;
    for b in bytes {
        if *b == 0 {
            none = false;
        }
    }
    none
}

// Whether a name stands at q, the running sum, with at most 512 bytes, all of them there and none 0.
fn name_ok(names: &[u8], q: usize, offset: u32, count: u32) -> bool
    ensures { result ≡ name_ok names.now q offset count }
{
    let from = offset as usize;
    if from != q {
        return false;
    }
    if 512 < count {
        return false;
    }
    let end = from + (count as usize);
    if names.len() < end {
        return false;
    }
    no_zero(&names[from..end])
}

// Where the exports' names end, if each stands right after the one before.
fn exports_end(exports: &[u8], names: &[u8], q: usize) -> Option<usize>
    ensures { result ≡ exports_end (length (words_in exports.now) / 3) (words_in exports.now) names.now 0 q }
{
    let n = exports.len() / 12;
    let mut place = q;
    for k in 0..n {
        let count = words::word(exports, 3 * k + 1);
        if !name_ok(names, place, words::word(exports, 3 * k), count) {
            return None;
        }
        place += count as usize;
    }
    Some(place)
}

// Whether a record's eight first words are right and its other words are there.
fn fixed_ok(bytes: &[u8], names: &[u8], q: usize) -> bool
    ensures { result ≡ fixed_ok (words_in bytes.now) names.now q }
{
    if bytes.len() / 4 < 8 {
        return false;
    }
    if bytes.len() / 4 < record::module_size(bytes) {
        return false;
    }
    if 1 < words::word(bytes, 2) {
        return false;
    }
    if 16 < words::word(bytes, 5) {
        return false;
    }
    name_ok(names, q, words::word(bytes, 3), words::word(bytes, 4))
}

// Where the names of the record end that the bytes begin with.
fn module_end(bytes: &[u8], names: &[u8], q: usize) -> Option<usize>
    ensures { result ≡ module_end (words_in bytes.now) names.now q }
{
    if !fixed_ok(bytes, names, q) {
        return None;
    }
    let from = 4 * (8 + (words::word(bytes, 5) as usize));
    let to = from + 12 * (words::word(bytes, 6) as usize);
    let list = &bytes[from..to];
    if !crate::ascending::ascending_exports(list, names) {
        return None;
    }
    exports_end(list, names, q + (words::word(bytes, 4) as usize))
}

// Whether the bytes are `count` records, one after another, and the names are theirs.
pub(crate) fn modules_ok(records: &[u8], names: &[u8], count: u32) -> bool
    ensures { result ≡ modules_ok count (words_in records.now) names.now 0 }
{
    let mut place: usize = 0;
    let mut q: usize = 0;
    for k in 0..count {
        let record = &records[place..];
        match module_end(record, names, q) {
            None => {
                return false;
            }
            Some(end) => {
                q = end;
            }
        }
        place += 4 * record::module_size(record);
    }
    if records.len() / 4 != place / 4 {
        return false;
    }
    q == names.len()
}
