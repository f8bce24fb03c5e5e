// The buffers of a stored call: laid out before it, and compared after it. The program call_cases says how a case is stored.
ghost use Rattle.std.specs.Prelude.{◌≡◌};
ghost use Rattle.linker_spec.specs.Outcome.{buffers};
ghost use Rattle.call_cases.specs.Buffers.{laid, compared};

use case_reader::put_pieces;
use register::exports::same_name;
use register::words::word;
use std::fmt;

// The first output of a call that is not the stored one, or that the case cannot be read.
#[derive(Clone, Copy)]
pub enum Difference {
    Number,
    Value,
    Touch,
    Window,
    Records,
    Names,
    Missing,
    Unreadable,
}

impl fmt::Display for Difference {
    fn fmt<W: fmt::Write>(&self, f: &mut fmt::Formatter<W>) -> fmt::Result {
        f.write_str(match self {
            Difference::Number => "number differs",
            Difference::Value => "value differs",
            Difference::Touch => "touch differs",
            Difference::Window => "window differs",
            Difference::Records => "records differ",
            Difference::Names => "names differ",
            Difference::Missing => "missing list differs",
            Difference::Unreadable => "unreadable",
        })
    }
}

// Lays the pieces at `at` that stand before the call over both buffers, and those that it must change over `after`.
pub fn lay(before: &mut [u8], after: &mut [u8], file: &[u8], at: usize) -> Option<usize>
    ensures { (result, before.new, after.new)
        ≡ laid file.now at before.old after.old }
{
    if file.len() / 4 < at {
        return None;
    }
    let standing = word(file, at);
    let changed = word(file, at + 1);
    let next = put_pieces(before, file, at + 2, standing)?;
    put_pieces(after, file, at + 2, standing)?;
    put_pieces(after, file, next, changed)
}

// The four buffers of a call, as long as a case has them at most.
#[derive(Clone, Copy)]
pub struct Stored {
    pub window: [u8; 65536],
    pub records: [u8; 8192],
    pub names: [u8; 8192],
    pub missing: [u8; 32900],
}

impl Stored {
    // All bytes 0.
    pub fn zeroed() -> Stored {
        Stored {
            window: [0u8; 65536],
            records: [0u8; 8192],
            names: [0u8; 8192],
            missing: [0u8; 32900],
        }
    }

    // The first buffer that is not as it must be.
    pub fn compare(&self, after: &Stored) -> Result<(), Difference>
        ensures { result ≡ compared (buffers self.now.window self.now.records self.now.names self.now.missing)
            (buffers after.now.window after.now.records after.now.names after.now.missing) }
    {
        if !same_name(&self.window, &after.window) {
            return Err(Difference::Window);
        }
        if !same_name(&self.records, &after.records) {
            return Err(Difference::Records);
        }
        if !same_name(&self.names, &after.names) {
            return Err(Difference::Names);
        }
        if !same_name(&self.missing, &after.missing) {
            return Err(Difference::Missing);
        }
        Ok(())
    }
}
