// Runs stored sessions. Standard input is a file of whole words: the number of cases, and for each case the length of its
// session file, the number of pieces, and the pieces, laid over zeros. Prints the number of each case, and its text.
// tools/session_cases.py makes the file, and the output that it must give.
#![tactic(auto)]

ghost use Rattle.std.specs.Prelude.{◌≡◌};
ghost use Rattle.session_cases.specs.Cases.{text_of, case_at};

use case_reader::put_pieces;
use reading::read_full;
use register::words::word;
use session::session_text;
use std::io;
use std::io::Write;

// The place of the next case, and the length of this one's text.
#[derive(Clone, Copy)]
struct Case {
    next: usize,
    length: usize,
}

fn main(rt: HostRuntime) -> io::Result<()> {
    let mut file = [0u8; 1048576];
    let n = read_full(&mut rt.reader(), &mut file)?;
    run_cases(&mut io::writer(&rt), &file[..n])
}

fn run_cases<W: Write>(out: &mut W, file: &[u8]) -> io::Result<()> {
    let mut text = [0u8; 139264];
    let count = word(file, 0);
    let mut at: usize = 1;
    for k in 0..count {
        print_number(out, k)?;
        let Some(case) = run_case(file, at, &mut text) else {
            return out.write_all(b" unreadable\n");
        };
        at = case.next;
        out.write_all(b"\n")?;
        out.write_all(&text[..case.length])?;
    }
    Ok(())
}

// Builds the session file of the case at place `at` and puts its text; none where the case cannot be read.
fn run_case(file: &[u8], at: usize, out: &mut [u8]) -> Option<Case>
    ensures { (result, out.new) ≡ case_at file.now at out.old }
{
    let mut session = [0u8; 49156];
    let all = file.len() / 4;
    if all < 2 {
        return None;
    }
    if all - 2 < at {
        return None;
    }
    let n = word(file, at);
    let next = put_pieces(&mut session, file, at + 2, word(file, at + 1))?;
    put_case(next, &session, n, out)
}

// Puts the text of the session file that the first n bytes of the buffer are; none where there are not so many.
fn put_case(next: usize, session: &[u8], n: u32, out: &mut [u8]) -> Option<Case>
    ensures { (result, out.new) ≡ text_of next session.now n out.old }
{
    let length = session_text(session.get(..n as usize)?, out);
    Some(Case { next, length })
}

// Prints the number of case k, counted from 1.
fn print_number<W: Write>(out: &mut W, k: u32) -> io::Result<()> {
    write!(out, "case {}", u64::from(k) + 1)
}
