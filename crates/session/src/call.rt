// A call of a session: any of the three exported calls, by value, with demand 3 in its contract.
ghost use Rattle.std.specs.Prelude.{◌≡◌};
ghost use Rattle.linker_spec.specs.Touches.{touches_of};
ghost use Rattle.linker_spec.specs.Outcome.{buffers, outcome};
ghost use Rattle.session.specs.Continues.{Continues};
ghost use Rattle.history.specs.Sessions.{call_record};

use fillqhano::call;
use linker_spec::call::Call;

// What a call answered.
#[derive(Clone, Copy)]
pub struct Answered {
    pub number: u32,
    pub value: u32,
}

// Makes the call. Its outcome is document 01's; a session with it added is one again, so under demand 3's premises every import then
// holds its address, and no byte differs from another session that ends alike.
pub(crate) fn make_call(
    call: Call,
    at: u32,
    window: &mut [u8],
    records: &mut [u8],
    names: &mut [u8],
    missing: &mut [u8],
    touched: &mut u32,
    first: &mut u32,
) -> Answered
    ensures continues { Continues (call_record call at
        (buffers window.old records.old names.old missing.old)
        (outcome result.number result.value (buffers window.new records.new names.new missing.new))) }
    ensures touches { (touched.new, first.new)
        ≡ touches_of call at (buffers window.old records.old names.old missing.old) }
{
    let mut value: u32 = 0;
    let number = call::make_call(
        call, at, window, records, names, missing, &mut value, touched, first,
    );
    Answered { number, value }
}
