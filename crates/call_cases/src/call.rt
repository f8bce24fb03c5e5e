// The call of a stored case. The program call_cases says how a case is stored.
ghost use Rattle.std.specs.Prelude.{◌≡◌, ◌/◌, ◌≤◌, length};
ghost use Rattle.register.specs.Words.{words_in};
ghost use Rattle.linker_spec.specs.Outcome.{buffers, outcome};
ghost use Rattle.call_cases.specs.Case.{stored_call, called, touched_by};

use fillqhano::call::make_call;
use linker_spec::call::Call;
use linker_spec::rebase::LoadArguments;
use register::words::word;

// The call that the case at place `at` stores, with its arguments.
fn stored_call(file: &[u8], at: usize) -> Call
    requires { at ≤ length file.now / 4 }
    ensures { result ≡ stored_call (words_in file.now) at }
{
    let base = word(file, at + 7);
    let size = word(file, at + 8);
    match word(file, at + 1) {
        1 => Call::Initialize(base, size),
        2 => {
            let given = LoadArguments {
                base,
                size,
                data_segment: word(file, at + 9),
                data_segment_size: word(file, at + 10),
                bss_segment: word(file, at + 11),
                bss_segment_size: word(file, at + 12),
            };
            Call::Load(given, word(file, at + 13), word(file, at + 14))
        }
        _ => Call::Unload(base),
    }
}

// Makes it, on the window at the address that the case stores.
pub fn call(
    file: &[u8],
    at: usize,
    window: &mut [u8],
    records: &mut [u8],
    names: &mut [u8],
    missing: &mut [u8],
    value: &mut u32,
    touched: &mut u32,
    first: &mut u32,
) -> u32
    requires { at ≤ length file.now / 4 }
    ensures answered { outcome result value.new (buffers window.new records.new names.new missing.new)
        ≡ called (words_in file.now) at
        (buffers window.old records.old names.old missing.old) }
    ensures touches { (touched.new, first.new)
        ≡ touched_by (words_in file.now) at
        (buffers window.old records.old names.old missing.old) }
{
    make_call(
        stored_call(file, at),
        word(file, at + 2),
        window,
        records,
        names,
        missing,
        value,
        touched,
        first,
    )
}
