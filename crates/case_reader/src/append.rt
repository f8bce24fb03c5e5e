// Bytes in a lent buffer, put piece by piece, each whole or not at all.
ghost use Rattle.std.specs.Prelude.{◌≡◌, ◌+◌, leb};
ghost use Rattle.case_reader.specs.Append.{appended};

// Whether n bytes from place `at` on fit in `all`.
fn has_room(at: usize, n: usize, all: usize) -> bool
    ensures { result ≡ leb (at + n) all }
{
    if all < at {
        return false;
    }
    n <= all - at
}

// Puts the bytes of `text` at place `at`, and gives the place after them. A buffer too short for them stays as it is.
pub(crate) fn put_bytes(buffer: &mut [u8], at: usize, text: &[u8]) -> Option<usize>
    ensures { (result, buffer.new) ≡ appended text.now at buffer.old }
{
    let n = text.len();
    if !has_room(at, n, buffer.len()) {
        return None;
    }
    buffer[at..at + n].copy_from_slice(text);
    Some(at + n)
}
