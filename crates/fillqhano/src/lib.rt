// The calls that a host makes, by the library `fillqhano_c`: `initialize`, `load` and `unload` of the title's loader, for any bytes lent, the writer's
// `write_image` and `read_image`, and the service desk's `send` and `turn`. Each answers a number, and lends its value through `value`; a call of
// the loader that answers 1 to 5 leaves the register as it was. `touched` becomes 1 where an access had a byte outside the window, and `first`
// where the first such access started. Numbers, and places for what is given beside them, are C's form: `fillqhano_c` exports each as it is.
#![tactic(auto)]

pub mod call;
mod serve;

ghost use Rattle.std.specs.Prelude.{◌≡◌, ℕ, List, IfOk, IfErr};
ghost use Rattle.window.specs.Memory.{good_window};
ghost use Rattle.window.specs.Trace.{touch_of};
ghost use Rattle.register.specs.Decode.{is_register};
ghost use Rattle.linker_spec.specs.Outcome.{buffers, outcome, load_arguments, initialize_outcome, load_outcome, unload_outcome};
ghost use Rattle.linker_spec.specs.Refusal.{number_of};
ghost use Rattle.linker_spec.specs.Touches.{initialize_touches, load_touches, unload_touches};
ghost use Rattle.writer_spec.specs.Outcome.{left, write_outcome, read_outcome};
ghost use Rattle.desk_spec.specs.Outcome.{send_outcome, handled, turn_outcome_of, turn_outcome};
ghost use Rattle.fillqhano.specs.Refusal.{refusal_of_buffers};

use desk::places;
use linker::calls;
use linker_spec::rebase::LoadArguments;
use linker_spec::refusal::Refusal;
use register_test::is_register;

// The tests that come first: the window's rule, then whether the buffers are a register.
fn check_buffers(
    at: u32,
    w: &[u8],
    records: &[u8],
    names: &[u8],
    missing: &[u8],
) -> Result<(), Refusal>
    ensures { number_of result ≡ refusal_of_buffers (good_window at w.now) (is_register records.now names.now missing.now) }
{
    if !window::good_window(at, w) {
        return Err(Refusal::BadWindow);
    }
    if !is_register(records, names, missing) {
        return Err(Refusal::NoRegister);
    }
    Ok(())
}

// What C gets of an answer: 0 and the value, or the error's number and the value 0.
fn answer<E: Into<u32>>(answered: Result<u32, E>, value: &mut u32) -> u32
    ensures done { IfOk answered (λ given. (result ≡ 0) × (value.new ≡ given)) }
    ensures refused { IfErr answered (λ error. E.converts error result × (value.new ≡ 0)) }
{
    match answered {
        Ok(given) => {
            *value = given;
            0
        }
        Err(error) => {
            *value = 0;
            error.into()
        }
    }
}

// No value and no touch, whatever the call before left in their places; or none that a turn served.
fn clear(value: &mut u32, touched: &mut u32, first: &mut u32)
    ensures { (value.new ≡ 0) × (touched.new ≡ 0) × (first.new ≡ 0) }
{
    *value = 0;
    *touched = 0;
    *first = 0;
}

// Gives what the trace says.
fn tell(trace: &[u8], touched: &mut u32, first: &mut u32)
    ensures { (touched.new, first.new) ≡ touch_of trace.now }
{
    *touched = window::touched(trace);
    *first = window::first(trace);
}

// Takes in the static module, whose base the register keeps from then on.
pub fn initialize(
    at: u32,
    window: &mut [u8],
    records: &mut [u8],
    names: &mut [u8],
    missing: &mut [u8],
    base: u32,
    size: u32,
    value: &mut u32,
    touched: &mut u32,
    first: &mut u32,
) -> u32
    ensures answered { outcome result value.new (buffers window.new records.new names.new missing.new)
        ≡ initialize_outcome base size at
        (buffers window.old records.old names.old missing.old) }
    ensures touches { (touched.new, first.new)
        ≡ initialize_touches base size at
        (buffers window.old records.old names.old missing.old) }
{
    clear(value, touched, first);
    if let Err(refusal) = check_buffers(at, window, records, names, missing) {
        return u32::from(refusal);
    }
    let mut trace = [0u8; 16];
    let initialized = calls::initialize(
        at,
        window,
        &mut trace[..],
        records,
        names,
        missing,
        base,
        size,
    );
    tell(&trace[..], touched, first);
    answer(initialized, value)
}

// Loads a module: links it, and gives as value how much of it is left.
pub fn load(
    at: u32,
    window: &mut [u8],
    records: &mut [u8],
    names: &mut [u8],
    missing: &mut [u8],
    base: u32,
    size: u32,
    data_segment: u32,
    data_segment_size: u32,
    bss_segment: u32,
    bss_segment_size: u32,
    auto_link: u32,
    fix_level: u32,
    value: &mut u32,
    touched: &mut u32,
    first: &mut u32,
) -> u32
    ensures answered { outcome result value.new (buffers window.new records.new names.new missing.new)
        ≡ load_outcome (load_arguments base size data_segment data_segment_size bss_segment bss_segment_size) auto_link fix_level at
        (buffers window.old records.old names.old missing.old) }
    ensures touches { (touched.new, first.new)
        ≡ load_touches (load_arguments base size data_segment data_segment_size bss_segment bss_segment_size) auto_link fix_level at
        (buffers window.old records.old names.old missing.old) }
{
    clear(value, touched, first);
    if let Err(refusal) = check_buffers(at, window, records, names, missing) {
        return u32::from(refusal);
    }
    let mut trace = [0u8; 16];
    let given = LoadArguments {
        base,
        size,
        data_segment,
        data_segment_size,
        bss_segment,
        bss_segment_size,
    };
    let loaded = calls::load(
        at,
        window,
        &mut trace[..],
        records,
        names,
        missing,
        given,
        auto_link,
        fix_level,
    );
    tell(&trace[..], touched, first);
    answer(loaded, value)
}

// Unloads the first module with that base: the modules that linked on their own no longer use it, and its record is gone.
// The value is 1 where a module left, 0 where none has that base.
pub fn unload(
    at: u32,
    window: &mut [u8],
    records: &mut [u8],
    names: &mut [u8],
    missing: &mut [u8],
    base: u32,
    value: &mut u32,
    touched: &mut u32,
    first: &mut u32,
) -> u32
    ensures answered { outcome result value.new (buffers window.new records.new names.new missing.new)
        ≡ unload_outcome base at
        (buffers window.old records.old names.old missing.old) }
    ensures touches { (touched.new, first.new)
        ≡ unload_touches base at
        (buffers window.old records.old names.old missing.old) }
{
    clear(value, touched, first);
    if let Err(refusal) = check_buffers(at, window, records, names, missing) {
        return u32::from(refusal);
    }
    let mut trace = [0u8; 16];
    let unloaded = calls::unload(at, window, &mut trace[..], records, names, missing, base);
    tell(&trace[..], touched, first);
    answer::<Refusal>(Ok(unloaded), value)
}

// Writes the CRO image of a description, and gives as value its length: 6 where it would not be well laid in each place, then 7 where it does not fit.
pub fn write_image(description: &[u8], image: &mut [u8], value: &mut u32) -> u32
    ensures { left result value.new image.new ≡ write_outcome description.now image.old }
{
    answer(writer::image::write_image(description, image), value)
}

// Gives the description of an image that was written so back, and as value its length.
pub fn read_image(image: &[u8], description: &mut [u8], value: &mut u32) -> u32
    ensures { left result value.new description.new ≡ read_outcome image.now description.old }
{
    answer(writer::image::read_image(image, description), value)
}

// Puts a command buffer at the end of its caller's queue: 8 for a ninth caller or a seventeenth buffer.
pub fn send(desk: &mut [u8], caller: u32, buffer: u32, value: &mut u32) -> u32
    ensures { (result, value.new, desk.new) ≡ send_outcome caller buffer desk.old }
{
    *value = 0;
    places::send(desk, caller, buffer)
}

// Serves the oldest command buffer of the caller whose turn it is, and says whose and which it was. The tests of window and register come first,
// and the buffer leaves its queue last.
pub fn turn(
    at: u32,
    window: &mut [u8],
    records: &mut [u8],
    names: &mut [u8],
    missing: &mut [u8],
    desk: &mut [u8],
    value: &mut u32,
    served: &mut u32,
    caller: &mut u32,
    buffer: &mut u32,
    touched: &mut u32,
    first: &mut u32,
) -> u32
    ensures { turn_outcome_of
        (handled result value.new served.new (touched.new, first.new)
        (buffers window.new records.new names.new missing.new))
        caller.new buffer.new desk.new
        ≡ turn_outcome at desk.old
        (buffers window.old records.old names.old missing.old) }
{
    clear(value, touched, first);
    clear(served, caller, buffer);
    if let Err(refusal) = check_buffers(at, window, records, names, missing) {
        return u32::from(refusal);
    }
    let Some(place) = places::turn_at(desk) else {
        return 0;
    };
    *caller = places::caller_at(desk, place);
    *buffer = places::oldest_at(desk, place);
    let number = serve::handle(
        at, window, records, names, missing, *buffer, value, served, touched, first,
    );
    places::take_oldest(desk, place);
    number
}
