// Runs of bytes in a lent buffer.
ghost use Rattle.std.specs.Prelude.{◌≡◌, ◌+◌, ◌-◌, ◌<◌, ◌≤◌, length, replicate, nat_le};
ghost use Rattle.std.proofs.lemmas.List.Edits.{sets};
ghost use Rattle.register.specs.Words.{part};
ghost use Rattle.register.specs.Append.Draft.{room_in};

// How many of n lent bytes count: those past 2^32 - 1 never do.
pub fn room(n: usize) -> usize
    ensures { result ≡ room_in n }
{
    if n < 0xFFFF_FFFF {
        return n;
    }
    0xFFFF_FFFF
}

// Whether `count` bytes from `from` on are among the first `free`.
pub fn fits(free: usize, from: usize, count: usize) -> bool
    ensures { result ≡ nat_le (from + count) free }
{
    if free < count {
        return false;
    }
    from <= free - count
}

// Copies `source` into the buffer from `place` on, as far as there are bytes.
pub fn copy_into(buffer: &mut [u8], place: usize, source: &[u8])
    ensures { buffer.new ≡ sets buffer.old place source.now }
{
    if buffer.len() < place {
        return;
    }
    let count = source.len().min(buffer.len() - place);
    buffer[place..place + count].copy_from_slice(&source[..count]);
}

// Clears the bytes from `from` up to `to`, as far as there are bytes.
pub fn clear(buffer: &mut [u8], from: usize, to: usize)
    ensures { buffer.new ≡ sets buffer.old from (replicate (to - from) 0) }
{
    let end = to.min(buffer.len());
    if from < end {
        buffer[from..end].fill(0);
    }
}

// Copies `count` bytes from `from` on to `to`.
pub fn copy_within(buffer: &mut [u8], from: usize, count: usize, to: usize)
    requires { (from + count ≤ length buffer.old) × (to + count ≤ length buffer.old) }
    ensures { buffer.new ≡ sets buffer.old to (part buffer.old from count) }
{
    buffer.copy_within(from..from + count, to);
}
