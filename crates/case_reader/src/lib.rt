// Stored buffers. A file of whole words holds pieces: an offset, a length, and the bytes, with zeros up to a whole word.
// Places in the file are counted in words.
#![tactic(auto)]

pub mod append;

ghost use Rattle.std.specs.Prelude.{◌≡◌};
ghost use Rattle.case_reader.specs.Pieces.{piece, pieces};

use crate::append::put_bytes;
use register::words::word;

// Lays the piece at `at` over the buffer and gives the place after it. A piece that is not all in the file, or does not
// fit in the buffer, is left out.
fn put_piece(buffer: &mut [u8], file: &[u8], at: usize) -> Option<usize>
    ensures { (result, buffer.new) ≡ piece file.now at buffer.old }
{
    let all = file.len() / 4;
    if all < at {
        return None;
    }
    let n = word(file, at + 1) as usize;
    let size = 2 + (n + 3) / 4;
    if all - at < size {
        return None;
    }
    let from = 4 * (at + 2);
    let end = from + n;
    put_bytes(buffer, word(file, at) as usize, &file[from..end])?;
    Some(at + size)
}

// Lays `count` pieces over the buffer, one after another, up to the first that is left out.
pub fn put_pieces(buffer: &mut [u8], file: &[u8], at: usize, count: u32) -> Option<usize>
    ensures { (result, buffer.new) ≡ pieces count file.now at buffer.old }
{
    let mut place = at;
    for _k in 0..count {
        place = put_piece(buffer, file, place)?;
    }
    Some(place)
}
