// The line that a session prints for a step, and its pieces.
ghost use Rattle.std.specs.Prelude.{◌++◌};
ghost use Rattle.text.specs.Text.{decimal_of, hex_of};
ghost use Rattle.text.specs.Puts.{Puts};
ghost use Rattle.session.specs.Lines.{step_name, step_line};

use linker_spec::call::Call;
use text::Text;

// Puts a text, and v after it in decimal.
pub(crate) fn decimal_after(text: &mut Text, before: &[u8], v: u32)
    ensures { Puts (before.now ++ decimal_of v) text.old text.new }
{
    text.put(before);
    text.put_decimal(v);
}

// Puts a text, and v after it in hex. Not one function with a radix: the two definitions differ in their digits' number too.
pub(crate) fn hex_after(text: &mut Text, before: &[u8], v: u32)
    ensures { Puts (before.now ++ hex_of v) text.old text.new }
{
    text.put(before);
    text.put_hex(v);
}

// Puts the name of the call that a step makes.
fn put_call(text: &mut Text, step: Option<Call>)
    ensures { Puts (step_name step) text.old text.new }
{
    match step {
        Some(Call::Initialize(_, _)) => text.put(b"initialize"),
        Some(Call::Load(_, _, _)) => text.put(b"load"),
        Some(Call::Unload(_)) => text.put(b"unload"),
        None => {}
    }
}

// Puts the line of step k, which gave the number and the value.
pub(crate) fn put_step(text: &mut Text, k: u32, step: Option<Call>, number: u32, value: u32)
    ensures { Puts (step_line k step number value) text.old text.new }
{
    text.put_decimal(k);
    text.put(b" ");
    put_call(text, step);
    decimal_after(text, b" ", number);
    hex_after(text, b" ", value);
    text.put(b"\n");
}
