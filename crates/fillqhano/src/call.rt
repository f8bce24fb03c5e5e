// Any of the linker's three calls, by value.
ghost use Rattle.std.specs.Prelude.{◌≡◌};
ghost use Rattle.linker_spec.specs.Touches.{touches_of};
ghost use Rattle.linker_spec.specs.Outcome.{buffers, outcome};
ghost use Rattle.history.specs.Sessions.{given, WordArguments};

use linker_spec::call::Call;

// Makes the call. Whatever it is, its arguments are 32-bit numbers. It answers as the three do, in C's form.
pub fn make_call(
    call: Call,
    at: u32,
    window: &mut [u8],
    records: &mut [u8],
    names: &mut [u8],
    missing: &mut [u8],
    value: &mut u32,
    touched: &mut u32,
    first: &mut u32,
) -> u32
    ensures answered { outcome result value.new (buffers window.new records.new names.new missing.new)
        ≡ given call at (buffers window.old records.old names.old missing.old) }
    ensures touches { (touched.new, first.new)
        ≡ touches_of call at (buffers window.old records.old names.old missing.old) }
    ensures words { WordArguments call }
{
    match call {
        Call::Initialize(base, size) => {
            crate::initialize(
                at, window, records, names, missing, base, size, value, touched, first,
            )
        }
        Call::Load(l, auto_link, level) => crate::load(
            at,
            window,
            records,
            names,
            missing,
            l.base,
            l.size,
            l.data_segment,
            l.data_segment_size,
            l.bss_segment,
            l.bss_segment_size,
            auto_link,
            level,
            value,
            touched,
            first,
        ),
        Call::Unload(base) => {
            crate::unload(
                at, window, records, names, missing, base, value, touched, first,
            )
        }
    }
}
