// Prints the header of the module on standard input: a line for each field, its name and its word, and then a line for
// each of the first 16 segments, its index, offset, size and kind. Numbers are in hex, the index too.
#![tactic(auto)]

mod lines;

ghost use Rattle.std.specs.Prelude.{◌<◌};

use layout::peek;
use reading::read_full;
use std::io;
use std::io::Write;

// The module starts with the window, at 0: there its offsets are addresses before it is loaded.
const BASE: u32 = 0;

// Reads a page. A shorter input is padded with zeros; what comes after the page is not read.
fn main(rt: HostRuntime) -> io::Result<()> {
    let mut page = [0u8; 4096];
    let n = read_full(&mut rt.reader(), &mut page)?;
    let mut out = io::writer(&rt);
    if !lines::is_module(BASE, &page, BASE, n) {
        return out.write_all(b"not a module\n");
    }
    print_fields(&mut out, &page)?;
    print_segments(&mut out, &page)
}

fn print_fields<W: Write>(out: &mut W, w: &[u8]) -> io::Result<()> {
    for k in 0..lines::LINES {
        print_field(out, w, k)?;
    }
    Ok(())
}

fn print_field<W: Write>(out: &mut W, w: &[u8], k: u32) -> io::Result<()>
    requires { k < 42 }
{
    out.write_all(lines::name(k))?;
    let word = peek::field(BASE, w, BASE, lines::line_offset(k));
    writeln!(out, "{word:x}")
}

fn print_segments<W: Write>(out: &mut W, w: &[u8]) -> io::Result<()> {
    for i in 0u32..16 {
        if !print_segment(out, w, i)? {
            return Ok(());
        }
    }
    Ok(())
}

// Prints segment i, if there is one, and answers whether.
fn print_segment<W: Write>(out: &mut W, w: &[u8], i: u32) -> io::Result<bool> {
    let Some(s) = peek::segment(BASE, w, BASE, i) else {
        return Ok(false);
    };
    let kind = u32::from(s.kind);
    writeln!(out, "segment {i:x} {:x} {:x} {kind:x}", s.offset, s.size)?;
    Ok(true)
}
