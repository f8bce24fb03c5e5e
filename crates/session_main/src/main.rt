// The session program: a session file on standard input, its text on standard output.
#![tactic(auto)]

use reading::read_full;
use session::session_text;
use std::io;
use std::io::{Read, Write};

// One byte more than a session file has at most is read, so that a longer input is noticed. No text is longer than the buffer.
fn main(rt: HostRuntime) -> io::Result<()> {
    let mut file = [0u8; 49153];
    let mut text = [0u8; 139264];
    run(&mut rt.reader(), &mut io::writer(&rt), &mut file, &mut text)
}

// Reads the file and prints its text, in the buffers lent.
fn run<R: Read, W: Write>(
    input: &mut R,
    out: &mut W,
    file: &mut [u8],
    text: &mut [u8],
) -> io::Result<()> {
    let n = read_full(input, file)?;
    let length = session_text(&file[..n], text);
    out.write_all(&text[..length])
}
