// The image that a description makes, and the description that an image gives back, written into a lent buffer.
ghost use Rattle.std.specs.Prelude.{◌≡◌, ◌+◌, ◌≤◌, min, length};
ghost use Rattle.writer_spec.specs.Description.{file_of};
ghost use Rattle.writer_spec.specs.Outcome.{told, write_outcome, read_outcome};
ghost use Rattle.writer.specs.Image.{between, Holds};

use crate::{accepts, bytes};
use layout::header;
use writer_spec::error::ImageError;

// "CRO0".
const CRO0: u32 = 0x304F_5243;

// Copies all bytes of `from` to the buffer's start.
fn copy(from: &[u8], buffer: &mut [u8])
    requires { length from.now ≤ length buffer.old }
    ensures { Holds buffer.old buffer.new (between 0 (length from.now) (file_of from.now) (file_of buffer.old)) }
{
    // Not `copy_from_slice`: the library for C would then need `memmove` from outside.
    for i in 0..from.len() {
        buffer[i] = from[i];
    }
}

// Makes the bytes from `from` to `to` 0.
fn clear(buffer: &mut [u8], from: usize, to: usize)
    requires { (from ≤ to) × (to ≤ length buffer.old) }
    ensures { Holds buffer.old buffer.new (between from to (λ o. 0) (file_of buffer.old)) }
{
    buffer[from..to].fill(0);
}

// Makes the word at `at` 0, as far as it comes before `end`.
fn clear_word(buffer: &mut [u8], at: u32, end: usize)
    requires { end ≤ length buffer.old }
    ensures { Holds buffer.old buffer.new (between (min at end) (min (at + 4) end) (λ o. 0) (file_of buffer.old)) }
{
    let from = at as usize;
    clear(buffer, from.min(end), (from + 4).min(end));
}

// Writes the image of a description, and gives its size.
pub fn write_image(description: &[u8], image: &mut [u8]) -> Result<u32, ImageError>
    ensures { told result image.new ≡ write_outcome description.now image.old }
{
    if !accepts::accepts(description) {
        return Err(ImageError::Malformed);
    }
    let size = accepts::image_size(description.len());
    if image.len() < (size as usize) {
        return Err(ImageError::NoRoom);
    }
    copy(description, image);
    clear(image, description.len(), size as usize);
    window::store32(image, header::MAGIC as usize, CRO0);
    window::store32(image, header::FILE_SIZE as usize, size);
    Ok(size)
}

// Gives the description back from an image that the writer made, and its length.
pub fn read_image(image: &[u8], description: &mut [u8]) -> Result<u32, ImageError>
    ensures { told result description.new ≡ read_outcome image.now description.old }
{
    if image.len() < (header::SIZE as usize) {
        return Err(ImageError::Malformed);
    }
    let size = bytes::word(image, header::STATIC_RELOCATION_TABLE_OFFSET as usize);
    let end = size as usize;
    if image.len() < end {
        return Err(ImageError::Malformed);
    }
    if description.len() < end {
        return Err(ImageError::NoRoom);
    }
    copy(&image[..end], description);
    clear_word(description, header::MAGIC, end);
    clear_word(description, header::FILE_SIZE, end);
    Ok(size)
}
