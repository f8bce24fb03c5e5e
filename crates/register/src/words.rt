// The records buffer as little-endian words, and parts of the name bytes.
ghost use Rattle.std.specs.Prelude.{◌≡◌, drop, slice_index};
ghost use Rattle.register.specs.Words.{words_in, part, all_zero};
ghost use Rattle.register.specs.Decode.{settled, read_crs};

// Word number i of the records; 0 past their whole words.
pub fn word(records: &[u8], i: usize) -> u32
    ensures { result ≡ slice_index (words_in records.now) i }
{
    if i < records.len() / 4 {
        return window::load32(records, 4 * i);
    }
    0
}

// The part of the bytes from `offset` on, `count` long, as far as there are bytes.
pub fn name_part(names: &[u8], offset: u32, count: u32) -> &[u8]
    ensures { result.now ≡ part names.now offset count }
{
    let from = offset as usize;
    let n = names.len();
    if n < from {
        return &names[n..];
    }
    let end = from + (count as usize);
    if n < end {
        return &names[from..];
    }
    &names[from..end]
}

// Whether all bytes from place `from` on are 0. There is no early way out, so that the compiler takes many bytes at a time.
pub fn zero_from(bytes: &[u8], from: usize) -> bool
    ensures { result ≡ all_zero (drop from bytes.now) }
{
    let mut zero = true;
    for i in from..bytes.len() {
        if bytes[i] != 0 {
            zero = false;
        }
    }
    zero
}

// The CRS, as the header has it.
pub fn read_crs(records: &[u8]) -> Option<u32>
    ensures { result ≡ read_crs (slice_index (words_in records.now) 1) (slice_index (words_in records.now) 2) }
{
    if word(records, 1) == 1 {
        return Some(word(records, 2));
    }
    None
}

// The record bytes used; 0 is read as 32 when no module stands.
pub fn used_bytes(records: &[u8]) -> u32
    ensures { result ≡ slice_index (settled (words_in records.now)) 3 }
{
    if records.len() < 16 {
        return 0;
    }
    let used = word(records, 3);
    if used != 0 {
        return used;
    }
    if word(records, 0) == 0 {
        return 32;
    }
    0
}
