// The exported calls, the library that a host links: each is the call of that name in `fillqhano`, whose clauses it has. No export may be named
// `send`, as a function of C's library is, so that one has the prefix here. host/build gives C callers the names that they link.
#![tactic(auto)]

ghost use Rattle.std.specs.Prelude.{◌≡◌};
ghost use Rattle.linker_spec.specs.Outcome.{buffers, outcome, load_arguments, initialize_outcome, load_outcome, unload_outcome};
ghost use Rattle.linker_spec.specs.Touches.{initialize_touches, load_touches, unload_touches};
ghost use Rattle.writer_spec.specs.Outcome.{left, write_outcome, read_outcome};
ghost use Rattle.desk_spec.specs.Outcome.{send_outcome, handled, turn_outcome_of, turn_outcome};

// Takes in the static module, whose base the register keeps from then on.
#[unsafe(no_mangle)]
pub extern "C" fn initialize(
    at: u32,
    window: &mut [u8],
    records: &mut [u8],
    names: &mut [u8],
    missing: &mut [u8],
    base: u32,
    size: u32,
    value: &mut u32,
    touched: &mut u32,
    first: &mut u32,
) -> u32
    ensures answered { outcome result value.new (buffers window.new records.new names.new missing.new)
        ≡ initialize_outcome base size at
        (buffers window.old records.old names.old missing.old) }
    ensures touches { (touched.new, first.new)
        ≡ initialize_touches base size at
        (buffers window.old records.old names.old missing.old) }
{
    fillqhano::initialize(
        at, window, records, names, missing, base, size, value, touched, first,
    )
}

// Loads a module: links it, and gives as value how much of it is left.
#[unsafe(no_mangle)]
pub extern "C" fn load(
    at: u32,
    window: &mut [u8],
    records: &mut [u8],
    names: &mut [u8],
    missing: &mut [u8],
    base: u32,
    size: u32,
    data_segment: u32,
    data_segment_size: u32,
    bss_segment: u32,
    bss_segment_size: u32,
    auto_link: u32,
    fix_level: u32,
    value: &mut u32,
    touched: &mut u32,
    first: &mut u32,
) -> u32
    ensures answered { outcome result value.new (buffers window.new records.new names.new missing.new)
        ≡ load_outcome (load_arguments base size data_segment data_segment_size bss_segment bss_segment_size) auto_link fix_level at
        (buffers window.old records.old names.old missing.old) }
    ensures touches { (touched.new, first.new)
        ≡ load_touches (load_arguments base size data_segment data_segment_size bss_segment bss_segment_size) auto_link fix_level at
        (buffers window.old records.old names.old missing.old) }
{
    fillqhano::load(
        at,
        window,
        records,
        names,
        missing,
        base,
        size,
        data_segment,
        data_segment_size,
        bss_segment,
        bss_segment_size,
        auto_link,
        fix_level,
        value,
        touched,
        first,
    )
}

// Unloads the first module with that base: the modules that linked on their own no longer use it, and its record is gone.
// The value is 1 where a module left, 0 where none has that base.
#[unsafe(no_mangle)]
pub extern "C" fn unload(
    at: u32,
    window: &mut [u8],
    records: &mut [u8],
    names: &mut [u8],
    missing: &mut [u8],
    base: u32,
    value: &mut u32,
    touched: &mut u32,
    first: &mut u32,
) -> u32
    ensures answered { outcome result value.new (buffers window.new records.new names.new missing.new)
        ≡ unload_outcome base at
        (buffers window.old records.old names.old missing.old) }
    ensures touches { (touched.new, first.new)
        ≡ unload_touches base at
        (buffers window.old records.old names.old missing.old) }
{
    fillqhano::unload(
        at, window, records, names, missing, base, value, touched, first,
    )
}

// Writes the CRO image of a description, and gives as value its length: 6 where it would not be well laid in each place, then 7 where it does not fit.
#[unsafe(no_mangle)]
pub extern "C" fn write_image(description: &[u8], image: &mut [u8], value: &mut u32) -> u32
    ensures { left result value.new image.new ≡ write_outcome description.now image.old }
{
    fillqhano::write_image(description, image, value)
}

// Gives the description of an image that was written so back, and as value its length.
#[unsafe(no_mangle)]
pub extern "C" fn read_image(image: &[u8], description: &mut [u8], value: &mut u32) -> u32
    ensures { left result value.new description.new ≡ read_outcome image.now description.old }
{
    fillqhano::read_image(image, description, value)
}

// Puts a command buffer at the end of its caller's queue: 8 for a ninth caller or a seventeenth buffer.
#[unsafe(no_mangle)]
pub extern "C" fn fillqhano_send(desk: &mut [u8], caller: u32, buffer: u32, value: &mut u32) -> u32
    ensures { (result, value.new, desk.new) ≡ send_outcome caller buffer desk.old }
{
    fillqhano::send(desk, caller, buffer, value)
}

// Serves the oldest command buffer of the caller whose turn it is, and says whose and which it was. The tests of window and register come first,
// and the buffer leaves its queue last.
#[unsafe(no_mangle)]
pub extern "C" fn turn(
    at: u32,
    window: &mut [u8],
    records: &mut [u8],
    names: &mut [u8],
    missing: &mut [u8],
    desk: &mut [u8],
    value: &mut u32,
    served: &mut u32,
    caller: &mut u32,
    buffer: &mut u32,
    touched: &mut u32,
    first: &mut u32,
) -> u32
    ensures { turn_outcome_of
        (handled result value.new served.new (touched.new, first.new)
        (buffers window.new records.new names.new missing.new))
        caller.new buffer.new desk.new
        ≡ turn_outcome at desk.old
        (buffers window.old records.old names.old missing.old) }
{
    fillqhano::turn(
        at, window, records, names, missing, desk, value, served, caller, buffer, touched, first,
    )
}
