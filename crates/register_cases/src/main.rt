// Tries number 4's test on stored registers. Standard input is a file of whole words: the number of cases, and for each
// case the lengths of records, names and missing list, the number of pieces of each, and the pieces, laid over zeros.
// Pieces may reach past a length: those bytes stand after the lent ones, and the test must not read them.
// Prints the verdict on each case, and how many were valid and refused. tools/register_cases.py makes the file.
#![tactic(auto)]

ghost use Rattle.std.specs.Prelude.{◌≡◌};
ghost use Rattle.register_cases.specs.Cases.{judged, case_at};

use case_reader::put_pieces;
use reading::read_full;
use register::words::word;
use register_test::is_register;
use std::io;
use std::io::Write;

// Whether a case is valid, and the place of the next one.
#[derive(Clone, Copy)]
struct Verdict {
    valid: bool,
    next: usize,
}

fn main(rt: HostRuntime) -> io::Result<()> {
    let mut file = [0u8; 262144];
    let n = read_full(&mut rt.reader(), &mut file)?;
    run_cases(&mut io::writer(&rt), &file[..n])
}

fn run_cases<W: Write>(out: &mut W, file: &[u8]) -> io::Result<()> {
    let count = word(file, 0);
    let mut at: usize = 1;
    let mut valid: u32 = 0;
    for k in 0..count {
        let Some(verdict) = run_case(file, at) else {
            return print_verdict(out, k, " unreadable\n");
        };
        at = verdict.next;
        if verdict.valid {
            valid += 1;
            print_verdict(out, k, " valid\n")?;
        } else {
            print_verdict(out, k, " refused\n")?;
        }
    }
    print_counts(out, count, valid, count - valid)
}

// Builds the case at place `at` and tries the test on it; none where it cannot be read.
fn run_case(file: &[u8], at: usize) -> Option<Verdict>
    ensures { result ≡ case_at file.now at }
{
    let mut records = [0u8; 8192];
    let mut names = [0u8; 8192];
    let mut missing = [0u8; 32900];
    if file.len() / 4 < at {
        return None;
    }
    let r = word(file, at);
    let n = word(file, at + 1);
    let m = word(file, at + 2);
    let a = put_pieces(&mut records, file, at + 6, word(file, at + 3))?;
    let b = put_pieces(&mut names, file, a, word(file, at + 4))?;
    let next = put_pieces(&mut missing, file, b, word(file, at + 5))?;
    judge(next, &records, r, &names, n, &missing, m)
}

// The verdict on the first r bytes of the records, n of the names and m of the missing list; none where there are not so many.
fn judge(
    next: usize,
    records: &[u8],
    r: u32,
    names: &[u8],
    n: u32,
    missing: &[u8],
    m: u32,
) -> Option<Verdict>
    ensures { result ≡ judged next records.now r names.now n missing.now m }
{
    let records = records.get(..r as usize)?;
    let names = names.get(..n as usize)?;
    let missing = missing.get(..m as usize)?;
    let valid = is_register(records, names, missing);
    Some(Verdict { valid, next })
}

// Prints the number of case k, counted from 1, and the verdict with its space and newline: each part of a text printed is a write of its own.
fn print_verdict<W: Write>(out: &mut W, k: u32, verdict: &str) -> io::Result<()> {
    write!(out, "{}{verdict}", u64::from(k) + 1)
}

fn print_counts<W: Write>(out: &mut W, cases: u32, valid: u32, refused: u32) -> io::Result<()> {
    writeln!(out, "cases {cases} valid {valid} refused {refused}")
}
