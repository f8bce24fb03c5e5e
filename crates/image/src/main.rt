// Makes the CRO image of the description on standard input, and writes it to standard output; a line that says why not, where there is none.
#![tactic(auto)]

use reading::read_full;
use std::io;
use std::io::Write;

// One byte more than the largest image has is read, so that a longer input is noticed. Nothing here is on the heap.
fn main(rt: HostRuntime) -> io::Result<()> {
    let mut description = [0u8; 262145];
    let n = read_full(&mut rt.reader(), &mut description)?;
    let mut out = io::writer(&rt);
    if 262144 < n {
        return out.write_all(b"the image would have more than 262,144 bytes\n");
    }
    let mut image = [0u8; 262144];
    print_image(&mut out, &description[..n], &mut image)
}

// Writes the image to the buffer lent, and prints it. A buffer that is too short is told as a description that makes no image is.
fn print_image<W: Write>(out: &mut W, description: &[u8], image: &mut [u8]) -> io::Result<()> {
    match writer::image::write_image(description, image) {
        Ok(size) => out.write_all(&image[..size as usize]),
        Err(_) => out.write_all(b"this makes no image that is well laid in every place\n"),
    }
}
