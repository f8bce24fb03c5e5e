// A session: the file judged, its steps run through the three calls, and the text that they print.
#![tactic(auto)]

mod call;
mod file;
mod head;
mod lines;
mod register_lines;
mod step;

ghost use Rattle.std.specs.Prelude.{◌≡◌, true, ◌<◌, ◌≤◌, length};
ghost use Rattle.register.specs.Decode.{is_register};
ghost use Rattle.text.specs.Text.{put};
ghost use Rattle.text.specs.Puts.{written};
ghost use Rattle.linker_spec.specs.Outcome.{buffers, outcome};
ghost use Rattle.session.specs.Head.{step_count};
ghost use Rattle.session.specs.Run.{StepPromise};
ghost use Rattle.session.specs.Session.{session_text};
ghost use Rattle.session.specs.Ahead.{StepRan, AllRan};

use crate::call::{Answered, make_call};
use crate::file::is_session;
use crate::head::{step_count, window_address, window_bytes};
use crate::lines::put_step;
use crate::register_lines::put_register;
use crate::step::Reader;
use linker_spec::call::Call;
use text::Text;

// Runs a step.
fn run_step(
    step: Option<Call>,
    at: u32,
    window: &mut [u8],
    records: &mut [u8],
    names: &mut [u8],
    missing: &mut [u8],
) -> Answered
    ensures { StepPromise step at (buffers window.old records.old names.old missing.old)
        (outcome result.number result.value (buffers window.new records.new names.new missing.new)) }
{
    let mut touched: u32 = 0;
    let mut first: u32 = 0;
    match step {
        Some(call) => make_call(
            call,
            at,
            window,
            records,
            names,
            missing,
            &mut touched,
            &mut first,
        ),
        None => Answered {
            number: 0,
            value: 0,
        },
    }
}

// Runs a step, number k from 0 on, and puts its line. The slices have one lifetime, so that run_steps lends them again for one.
fn run_turn<'a>(
    step: Option<Call>,
    k: u32,
    address: u32,
    window: &'a mut [u8],
    records: &'a mut [u8],
    names: &'a mut [u8],
    missing: &'a mut [u8],
    text: &mut Text,
)
    requires { k < 64 }
    ensures ran { StepRan step address k
        (written text.old, buffers window.old records.old names.old missing.old)
        (written text.new, buffers window.new records.new names.new missing.new) }
    ensures same { text.new.buffer.ghost_name ≡ text.old.buffer.ghost_name }
{
    let answered = run_step(step, address, window, records, names, missing);
    put_step(text, k + 1, step, answered.number, answered.value);
}

// Runs all steps, as the reader goes from one to the next, and puts their lines.
fn run_steps(
    file: &[u8],
    window: &mut [u8],
    records: &mut [u8],
    names: &mut [u8],
    missing: &mut [u8],
    text: &mut Text,
)
    requires { (step_count file.now ≤ 64) × (is_register records.old names.old missing.old ≡ true) }
    ensures ran { AllRan file.now (step_count file.now)
        (written text.old, buffers window.old records.old names.old missing.old)
        (written text.new, buffers window.new records.new names.new missing.new) }
    ensures same { text.new.buffer.ghost_name ≡ text.old.buffer.ghost_name }
{
    let count = step_count(file);
    let address = window_address(file);
    let mut r = Reader::new(file);
    // No `for`: the reader says where it stands (docs/CLAIMS.md, 169).
    while r.next < count {
        let step = r.next_step();
        run_turn(step, r.next, address, window, records, names, missing, text);
        r.advance();
    }
}

// Puts the text of a session, as far as there is room, and answers how many bytes that are. A buffer of 139,264 bytes has
// room for every text.
pub fn session_text(file: &[u8], out: &mut [u8]) -> usize
    ensures { ((result, out.new) ≡ put (session_text file.now) (0, out.old))
        × (length (session_text file.now) ≤ 139264) }
{
    let mut text = Text {
        buffer: out,
        length: 0,
    };
    if !is_session(file) {
        text.put(b"session bad\n");
        return text.length;
    }
    let mut window = [0u8; 32768];
    let mut records = [0u8; 16384];
    let mut names = [0u8; 16384];
    let mut missing = [0u8; 32896];
    let bytes = window_bytes(file);
    let window = &mut window[..bytes.len()];
    window.copy_from_slice(bytes);
    text.put(b"session ");
    text.put_decimal(step_count(file));
    text.put(b"\n");
    run_steps(
        file,
        window,
        &mut records,
        &mut names,
        &mut missing,
        &mut text,
    );
    put_register(&mut text, &records, &names, &missing);
    text.length
}
