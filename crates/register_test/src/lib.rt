// Number 4's test: whether the three buffers are an encoding of a register. It ends on any bytes and reads none outside.
#![tactic(auto)]

mod ascending;
mod records;

ghost use Rattle.std.specs.Prelude.{◌≡◌, ◌*◌, ◌≤◌, length, get_or};
ghost use Rattle.register.specs.Words.{words_in};
ghost use Rattle.register.specs.Decode.{is_register};
ghost use Rattle.register.specs.Check.{slot_ok, slots_ok, counts_ok, sizes_ok, contents_ok};

use register::words;

// Whether the header's counts and flags are right.
fn counts_ok(records: &[u8]) -> bool
    ensures { result ≡ counts_ok (words_in records.now) }
{
    if 64 < words::word(records, 0) {
        return false;
    }
    if 64 < words::word(records, 5) {
        return false;
    }
    if words::word(records, 6) != 0 {
        return false;
    }
    if words::word(records, 7) != 0 {
        return false;
    }
    let known = words::word(records, 1);
    if known == 1 {
        return true;
    }
    if known != 0 {
        return false;
    }
    words::word(records, 2) == 0
}

// Whether the bytes used are there, and whole words after the header.
fn sizes_ok(used: u32, named: u32, records: usize, names: usize) -> bool
    ensures { result ≡ sizes_ok used named records names }
{
    if used < 32 {
        return false;
    }
    if records < (used as usize) {
        return false;
    }
    if used % 4 != 0 {
        return false;
    }
    (named as usize) <= names
}

// Whether one slot of the missing list holds a name, and zeros after it.
fn slot_ok(slot: &[u8]) -> bool
    requires { length slot.now ≡ 514 }
    ensures { result ≡ slot_ok slot.now }
{
    let low = slot[0] as usize;
    let high = slot[1] as usize;
    let size = low + 256 * high;
    if 512 < size {
        return false;
    }
    let end = 2 + size;
    if !crate::records::no_zero(&slot[2..end]) {
        return false;
    }
    words::zero_from(slot, end)
}

// Whether the first `count` slots are right.
fn slots_ok(missing: &[u8], count: u32) -> bool
    requires { 514 * count ≤ length missing.now }
    ensures { result ≡ slots_ok count missing.now }
{
    for k in 0..count as usize {
        let place = 514 * k;
        if !slot_ok(&missing[place..place + 514]) {
            return false;
        }
    }
    true
}

// Whether the records, names and slots are right, and all bytes after them are 0.
fn contents_ok(records: &[u8], names: &[u8], missing: &[u8], used: u32, named: u32) -> bool
    requires { (32 ≤ used) × (used ≤ length records.now) × (named ≤ length names.now) × (514 * get_or (words_in records.now) 5 0 ≤ length missing.now) }
    ensures { result ≡ contents_ok (get_or (words_in records.now) 0 0) used named (get_or (words_in records.now) 5 0)
        records.now names.now missing.now }
{
    let end = used as usize;
    let last = named as usize;
    let kept = words::word(records, 5);
    if !crate::records::modules_ok(&records[32..end], &names[..last], words::word(records, 0)) {
        return false;
    }
    if !slots_ok(missing, kept) {
        return false;
    }
    if !words::zero_from(records, end) {
        return false;
    }
    if !words::zero_from(names, last) {
        return false;
    }
    words::zero_from(missing, 514 * (kept as usize))
}

// Whether the three buffers are an encoding of a register of at most 64 records.
pub fn is_register(records: &[u8], names: &[u8], missing: &[u8]) -> bool
    ensures { result ≡ is_register records.now names.now missing.now }
{
    if records.len() < 32 {
        return false;
    }
    if !counts_ok(records) {
        return false;
    }
    let used = words::used_bytes(records);
    let named = words::word(records, 4);
    if !sizes_ok(used, named, records.len(), names.len()) {
        return false;
    }
    if missing.len() != 32896 {
        return false;
    }
    contents_ok(records, names, missing, used, named)
}
