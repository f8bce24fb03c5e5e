// The modules in load order: their count, the first with a base or a name, and named lookup; and the missing names.
ghost use Rattle.std.specs.Prelude.{◌≡◌, ℕ, ◌+◌, ◌*◌, Bool, List, nat_eq, slice_index};
ghost use Rattle.register.specs.Words.{part, same, words_in};
ghost use Rattle.register.specs.Module.{Module};
ghost use Rattle.register.specs.Read.Search.{Tells};
ghost use Rattle.register.specs.Decode.{slot_name};
ghost use Rattle.register.specs.Read.Read.{Encoded, modules_of, place_from, has_base, has_name, lookup_in};

use crate::read::Record;
use crate::{exports, words};

// How many modules stand.
pub fn module_count(records: &[u8]) -> u32
    ensures { result ≡ slice_index (words_in records.now) 0 }
{
    words::word(records, 0)
}

// Where the first record begins that the test takes.
fn first_record<F: Fn(Record) -> bool>(records: &[u8], test: F) -> Option<usize>
    requires callable { F.IsAlwaysCallable test }
    requires encoded { (names : List ℕ) × Encoded records.now names }
    ensures { (names : List ℕ) (takes : Module → Bool) → Encoded records.now names
        → Tells records.now names takes (F.post test)
        → result ≡ place_from 32 (modules_of records.now names) takes }
{
    let count = module_count(records);
    let mut place: usize = 32;
    for k in 0..count {
        let record = crate::read::record_at(records, place);
        if test(record) {
            return Some(place);
        }
        place = crate::read::record_end(record);
    }
    None
}

// Where the record of the first module with that base begins.
pub fn first_with_base(records: &[u8], base: u32) -> Option<usize>
    requires { (names : List ℕ) × Encoded records.now names }
    ensures { (names : List ℕ) → Encoded records.now names
        → result ≡ place_from 32 (modules_of records.now names) (has_base base) }
{
    first_record(
        records,
        |record: Record| -> bool
            ensures { result ≡ nat_eq «record».base base }
        { record.base == base },
    )
}

// Where the record of the first module with that name begins.
pub fn first_with_name(records: &[u8], names: &[u8], name: &[u8]) -> Option<usize>
    requires { Encoded records.now names.now }
    ensures { result ≡ place_from 32 (modules_of records.now names.now) (has_name name.now) }
{
    first_record(
        records,
        |record: Record| -> bool
            ensures { result ≡ same name.entry.now (part names.entry.now «record».name_offset «record».name_length) }
        { exports::same_name(name, crate::read::record_name(names, record)) },
    )
}

// Named lookup: the address in the first auto-linked module that exports the name.
pub fn lookup(records: &[u8], names: &[u8], name: &[u8]) -> Option<u32>
    requires { Encoded records.now names.now }
    ensures { result ≡ lookup_in (modules_of records.now names.now) name.now }
{
    let count = module_count(records);
    let mut place: usize = 32;
    for k in 0..count {
        let record = crate::read::record_at(records, place);
        if record.auto_link == 1 {
            if let Some(address) = crate::read::export_named(records, names, place, name) {
                return Some(address);
            }
        }
        place = crate::read::record_end(record);
    }
    None
}

// How many names are missing.
pub fn missing_count(records: &[u8]) -> u32
    ensures { result ≡ slice_index (words_in records.now) 5 }
{
    words::word(records, 5)
}

// Missing name number k; empty past the list.
pub fn missing_name(missing: &[u8], k: u32) -> &[u8]
    ensures { result.now ≡ slot_name (part missing.now (514 * k) 514) }
{
    let slot = crate::read::bytes_at(missing, 514 * (k as usize), 514);
    if slot.len() < 2 {
        return crate::read::bytes_from(slot, 2);
    }
    let low = slot[0] as usize;
    let high = slot[1] as usize;
    crate::read::bytes_at(slot, 2, low + 256 * high)
}
