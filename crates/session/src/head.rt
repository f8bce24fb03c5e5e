// The head of a session file: its words, the limits that they keep, and the parts that they name.
ghost use Rattle.std.specs.Prelude.{◌≡◌, ◌&&◌, ◌+◌, ◌*◌, length, leb};
ghost use Rattle.register.specs.Words.{part};
ghost use Rattle.session.specs.Head.{step_count, step_table, window_address, window_length, window_offset};

use register::words::{name_part, word};

// How many steps the session has.
pub(crate) fn step_count(file: &[u8]) -> u32
    ensures { result ≡ step_count file.now }
{
    word(file, 0)
}

// The address that the window's first byte has.
pub(crate) fn window_address(file: &[u8]) -> u32
    ensures { result ≡ window_address file.now }
{
    word(file, 2)
}

// The window's bytes, as they stand before the first step.
pub(crate) fn window_bytes(file: &[u8]) -> &[u8]
    ensures { result.now ≡ part file.now (window_offset file.now) (window_length file.now) }
{
    name_part(file, word(file, 4), word(file, 3))
}

// Whether the file's length, the steps and the window's length keep their limits.
pub(crate) fn in_limits(file: &[u8]) -> bool
    ensures { result ≡ (leb 20 (length file.now) && (leb (length file.now) 49152
        && (leb (step_count file.now) 64 && leb (window_length file.now) 32768))) }
{
    if file.len() < 20 {
        return false;
    }
    if 49152 < file.len() {
        return false;
    }
    if 64 < word(file, 0) {
        return false;
    }
    word(file, 3) <= 32768
}

// Whether the step table and the window's bytes stand in the file.
pub(crate) fn are_parts_inside(file: &[u8]) -> bool
    ensures { result ≡ (leb (step_table file.now + 36 * step_count file.now) (length file.now)
        && leb (window_offset file.now + window_length file.now) (length file.now)) }
{
    let table_end = (word(file, 1) as usize) + 36 * (word(file, 0) as usize);
    if file.len() < table_end {
        return false;
    }
    let window_end = (word(file, 4) as usize) + (word(file, 3) as usize);
    window_end <= file.len()
}
