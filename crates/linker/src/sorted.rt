// A table's named exports sorted by their names in free bytes, by merges: two words each, as they wait there. Of twelve bytes an entry,
// which is what a record takes, these need eight at most, and the rest holds the left run of a merge.
ghost use Rattle.std.specs.Prelude.{◌≡◌, ◌+◌, ◌*◌, ◌/◌, ◌^◌, ◌<◌, ◌≤◌, true, List, [], ◌∷◌, length, drop};
ghost use Rattle.std.proofs.lemmas.List.Edits.{sets};
ghost use Rattle.layout.specs.Header.{export_named_symbol_table_offset};
ghost use Rattle.register.specs.Words.{flat};
ghost use Rattle.register.specs.Module.{Export, ascending};
ghost use Rattle.register.specs.Encode.{export_names};
ghost use Rattle.linker.specs.Record.Read.{header_word};
ghost use Rattle.linker.specs.Exports.Puts.{puts, named_from};
ghost use Rattle.linker.specs.Exports.Sorted.{Sorted, Merging};

use layout::fields::entry_address;
use layout::format::{EXPORT_NAMED_SYMBOL_ENTRY_SIZE, SegmentTag};
use layout::peek;
use register::append::bytes::copy_within;
use register::words::word;
use std::cmp::Ordering;
use window::name::{compare_names_at, peek_name};

// Lays the two words of an export as number k.
fn lay(items: &mut [u8], k: usize, place: u32, address: u32)
    requires { 8 * (k + 1) ≤ length items.old }
    ensures { items.new ≡ sets items.old (8 * k) (flat (place ∷ address ∷ [])) }
{
    let at = 8 * k;
    window::store32(items, at, place);
    window::store32(items, at + 4, address);
}

// Merges the run from number n on, `left` long, with that from number `left` up to n, and gives how many they are then. Of one name
// only that of the latter stays.
fn merge_runs(at: u32, w: &[u8], items: &mut [u8], left: usize, n: usize) -> usize
    requires { (left ≤ n) × (8 * (n + left) ≤ length items.old) }
    ensures { (result ≤ n)
        × ((all : List Export) → ascending all ≡ true → Merging at w.now all n (n + left) n left 0 items.old
        → Sorted at w.now all result items.new) }
{
    let end = n + left;
    let mut i = n;
    let mut j = left;
    let mut k: usize = 0;
    // Two indices, each moved by what the names say: no range or iterator gives both.
    while i < end {
        if n <= j {
            copy_within(items, 8 * i, 8 * (end - i), 8 * k);
            return k + (end - i);
        }
        let x = word(items, 2 * i);
        let y = word(items, 2 * j);
        match compare_names_at(at, w, x, y) {
            Ordering::Less => {
                let address = word(items, 2 * i + 1);
                lay(items, k, x, address);
                i += 1;
                k += 1;
            }
            Ordering::Equal => {
                i += 1;
            }
            Ordering::Greater => {
                let address = word(items, 2 * j + 1);
                lay(items, k, y, address);
                j += 1;
                k += 1;
            }
        }
    }
    if k < j {
        copy_within(items, 8 * j, 8 * (n - j), 8 * k);
        return k + (n - j);
    }
    k + (n - j)
}

// Merges two runs, the second one after the first, and gives how many they are then. Where the first one's last name comes before the
// second one's first they stand in order; else the first one is copied behind both.
fn merge(at: u32, w: &[u8], items: &mut [u8], left: usize, right: usize) -> usize
    requires { 8 * (left + right + left) ≤ length items.old }
    ensures { (result ≤ left + right)
        × ((before after : List Export) → Sorted at w.now before left items.old
        → Sorted at w.now after right (drop (8 * left) items.old)
        → Sorted at w.now (puts before after) result items.new) }
{
    if left == 0 {
        return right;
    }
    if right == 0 {
        return left;
    }
    let n = left + right;
    let last = word(items, 2 * left - 2);
    let first = word(items, 2 * left);
    match compare_names_at(at, w, last, first) {
        Ordering::Less => {
            return n;
        }
        Ordering::Equal => {}
        Ordering::Greater => {}
    }
    copy_within(items, 0, 8 * left, 8 * n);
    merge_runs(at, w, items, left, n)
}

// Lays the export of entry i, if its tag gives an address, and gives how many that are.
fn gather_one(at: u32, w: &[u8], base: u32, table: u32, i: u32, items: &mut [u8]) -> usize
    requires { 8 ≤ length items.old }
    ensures { (result ≤ 1)
        × (table ≡ header_word at w.now base export_named_symbol_table_offset
        → Sorted at w.now (named_from at w.now base i 1) result items.new) }
{
    let entry = entry_address(table, i, EXPORT_NAMED_SYMBOL_ENTRY_SIZE);
    let place = peek::word(at, w, entry);
    let tag = SegmentTag(peek::word(at, w, std::num::wrapping_add_u32(entry, 4)));
    match peek::tag_to_address(at, w, base, tag) {
        None => 0,
        Some(address) => {
            lay(items, 0, place, address);
            1
        }
    }
}

// Gathers the exports of `count` entries from number `from` on, sorted, and gives how many they are: of one name only the last.
pub(crate) fn gather(
    at: u32,
    w: &[u8],
    base: u32,
    table: u32,
    from: u32,
    count: u32,
    items: &mut [u8],
) -> usize
    requires { (from + count < 2 ^ 32) × (12 * count ≤ length items.old) }
    ensures { (result ≤ count)
        × (table ≡ header_word at w.now base export_named_symbol_table_offset
        → Sorted at w.now (named_from at w.now base from count) result items.new) }
{
    if count == 0 {
        return 0;
    }
    if count == 1 {
        return gather_one(at, w, base, table, from, items);
    }
    let half = count / 2;
    let left = gather(at, w, base, table, from, half, items);
    let start = 8 * left;
    let right = gather(
        at,
        w,
        base,
        table,
        from + half,
        count - half,
        &mut items[start..],
    );
    merge(at, w, items, left, right)
}

// How many bytes the names of those that wait have.
pub(crate) fn names_length(at: u32, w: &[u8], waiting: &[u8]) -> usize
    requires { length waiting.now < 2 ^ 32 }
    ensures { (exports : List Export) → Sorted at w.now exports (length waiting.now / 8) waiting.now
        → result ≡ length (export_names exports) }
{
    let mut buffer = [0u8; 512];
    let n = waiting.len() / 8;
    let mut sum: usize = 0;
    for k in 0..n {
        let place = word(waiting, 2 * k);
        sum += peek_name(at, w, place, &mut buffer);
    }
    sum
}
