// What a turn of the desk does with a command buffer: the linker's call that it asks for, if any, and the reply.
ghost use Rattle.std.specs.Prelude.{◌≡◌};
ghost use Rattle.linker_spec.specs.Outcome.{buffers};
ghost use Rattle.desk_spec.specs.Outcome.{handled, handle};

use crate::call::make_call;
use desk::command::{command_at, id_at, reply_done, reply_error, reply_to};
use desk_spec::command::Command;

// Answers the command buffer at p: `served` becomes 1, or 2 where its id is outside 1 to 9. Numbers and places, as `turn` gives C.
pub(crate) fn handle(
    at: u32,
    window: &mut [u8],
    records: &mut [u8],
    names: &mut [u8],
    missing: &mut [u8],
    p: u32,
    value: &mut u32,
    served: &mut u32,
    touched: &mut u32,
    first: &mut u32,
) -> u32
    ensures { handled result value.new served.new (touched.new, first.new)
        (buffers window.new records.new names.new missing.new)
        ≡ handle at p (buffers window.old records.old names.old missing.old) }
{
    crate::clear(value, touched, first);
    *served = 1;
    let id = id_at(at, window, p);
    match command_at(at, window, p) {
        Command::Call(call) => {
            let number = make_call(
                call, at, window, records, names, missing, value, touched, first,
            );
            reply_to(at, window, p, id, call, number, *value);
            number
        }
        Command::Elsewhere => {
            reply_error(at, window, p, id);
            9
        }
        Command::Acknowledged => {
            reply_done(at, window, p, id);
            0
        }
        Command::Unknown => {
            *served = 2;
            0
        }
    }
}
