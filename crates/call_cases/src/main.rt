// Runs stored calls of the linker through its exported functions. Standard input is a file of whole words: the number of
// cases, and the cases. A case is: its length in words, the call (1 initialize, 2 load, 3 unload), the window's address,
// the lengths of window, records, names and missing list, the call's eight arguments (those it has not are 0), the number
// and the value that it must give, its touch (1 or 0, and where it starts); then for each of the four buffers how many pieces stand in it before the call, how
// many the call must change, and the pieces. tools/call_cases.py makes the file, and says why each case gives what it does.
// Prints for each case `ok` or the first output that differs, and how many were ok.
#![tactic(auto)]

mod buffers;
mod call;

ghost use Rattle.std.specs.Prelude.{◌/◌, ◌≤◌, length};

use crate::buffers::{Difference, Stored, lay};
use crate::call::call;
use reading::read_full;
use register::words::word;
use std::io;
use std::io::Write;

fn main(rt: HostRuntime) -> io::Result<()> {
    let mut file = [0u8; 262144];
    let n = read_full(&mut rt.reader(), &mut file)?;
    run_cases(&mut io::writer(&rt), &file[..n])
}

fn run_cases<W: Write>(out: &mut W, file: &[u8]) -> io::Result<()> {
    let count = word(file, 0);
    let mut at: usize = 1;
    let mut same: u32 = 0;
    for k in 0..count {
        if file.len() / 4 < at {
            return out.write_all(b"the file ends before the last case\n");
        }
        let outcome = run_case(file, at);
        print_outcome(out, k, outcome)?;
        if outcome.is_ok() {
            same += 1;
        }
        at += word(file, at) as usize;
    }
    print_counts(out, count, same)
}

// Builds the buffers of the case at place `at`, as they are before the call and as they must be after it, and tries it.
fn run_case(file: &[u8], at: usize) -> Result<(), Difference>
    requires { at ≤ length file.now / 4 }
{
    let mut lent = Stored::zeroed();
    let mut after = Stored::zeroed();
    lay_all(&mut lent, &mut after, file, at + 19).ok_or(Difference::Unreadable)?;
    judge(file, at, &mut lent, &after)
}

// Lays the pieces of all four buffers, from place `at` on.
fn lay_all(lent: &mut Stored, after: &mut Stored, file: &[u8], at: usize) -> Option<usize> {
    let at = lay(&mut lent.window, &mut after.window, file, at)?;
    let at = lay(&mut lent.records, &mut after.records, file, at)?;
    let at = lay(&mut lent.names, &mut after.names, file, at)?;
    lay(&mut lent.missing, &mut after.missing, file, at)
}

// Makes the call and compares what it leaves; value and touch are 99 before, and the number is where no call is made.
fn judge(file: &[u8], at: usize, lent: &mut Stored, after: &Stored) -> Result<(), Difference>
    requires { at ≤ length file.now / 4 }
{
    let mut value: u32 = 99;
    let mut touched: u32 = 99;
    let mut first: u32 = 99;
    let number = call_lent(file, at, lent, &mut value, &mut touched, &mut first).unwrap_or(99);
    if number != word(file, at + 15) {
        return Err(Difference::Number);
    }
    if value != word(file, at + 16) {
        return Err(Difference::Value);
    }
    if touched != word(file, at + 17) {
        return Err(Difference::Touch);
    }
    if first != word(file, at + 18) {
        return Err(Difference::Touch);
    }
    lent.compare(after)
}

// Lends the first bytes of the buffers to the call, as many as the case says; none where a buffer has not so many.
fn call_lent(
    file: &[u8],
    at: usize,
    lent: &mut Stored,
    value: &mut u32,
    touched: &mut u32,
    first: &mut u32,
) -> Option<u32>
    requires { at ≤ length file.now / 4 }
{
    let window = lent.window.get_mut(..word(file, at + 3) as usize)?;
    let records = lent.records.get_mut(..word(file, at + 4) as usize)?;
    let names = lent.names.get_mut(..word(file, at + 5) as usize)?;
    let missing = lent.missing.get_mut(..word(file, at + 6) as usize)?;
    Some(call(
        file, at, window, records, names, missing, value, touched, first,
    ))
}

// Prints the number of case k, counted from 1, and whether it is as stored.
fn print_outcome<W: Write>(out: &mut W, k: u32, outcome: Result<(), Difference>) -> io::Result<()> {
    let number = u64::from(k) + 1;
    match outcome {
        Ok(()) => writeln!(out, "{number} ok"),
        Err(difference) => writeln!(out, "{number} {difference}"),
    }
}

fn print_counts<W: Write>(out: &mut W, cases: u32, same: u32) -> io::Result<()> {
    writeln!(out, "cases {cases} ok {same}")
}
