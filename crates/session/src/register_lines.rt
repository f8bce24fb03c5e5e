// The lines that a session prints of a register: a module's, and those of all modules and missing names.
ghost use Rattle.std.specs.Prelude.{◌≡◌, true, List, ◌++◌, ℕ, ◌^◌, ◌<◌, length};
ghost use Rattle.register.specs.Module.{Module};
ghost use Rattle.register.specs.Decode.{is_register, register_of};
ghost use Rattle.register.specs.Read.Read.{Encoded, modules_of, module_at};
ghost use Rattle.register.specs.Read.Places.{RecordStands};
ghost use Rattle.text.specs.Puts.{Puts};
ghost use Rattle.session.specs.RegisterLines.Lines.{name_text, module_line, module_lines, missing_lines};

use crate::lines::{decimal_after, hex_after};
use register::read::{modules, record_at, record_end, record_name};
use text::Text;

// Puts a name's length, and its bytes if there are any.
fn put_name(text: &mut Text, name: &[u8])
    requires { length name.now < 2 ^ 32 }
    ensures { Puts (name_text name.now) text.old text.new }
{
    let n = name.len();
    text.put_decimal(n as u32);
    if n == 0 {
        return;
    }
    text.put(b" ");
    text.put_pairs(name);
}

// Puts the line of the module whose record stands at a place.
fn put_module(text: &mut Text, records: &[u8], names: &[u8], place: usize)
    requires { (m : Module) × RecordStands records.now names.now place m }
    ensures { Puts (module_line (module_at records.now names.now place)) text.old text.new }
{
    let record = record_at(records, place);
    hex_after(text, b"module ", record.base);
    hex_after(text, b" ", record.size);
    decimal_after(text, b" ", record.auto_link);
    decimal_after(text, b" ", record.named);
    decimal_after(text, b" ", record.indexed);
    text.put(b" ");
    put_name(text, record_name(names, record));
    text.put(b"\n");
}

// Puts the lines of all modules, in load order.
fn put_modules(text: &mut Text, records: &[u8], names: &[u8])
    requires { Encoded records.now names.now }
    ensures { Puts (module_lines (modules_of records.now names.now)) text.old text.new }
{
    let count = modules::module_count(records);
    let mut place: usize = 32;
    for _k in 0..count {
        put_module(text, records, names, place);
        place = record_end(record_at(records, place));
    }
}

// Puts the count of the missing names, and a line for each.
fn put_missing(text: &mut Text, records: &[u8], missing: &[u8])
    requires { (names : List ℕ) × is_register records.now names missing.now ≡ true }
    ensures { (names : List ℕ) → Puts (missing_lines (register_of records.now names missing.now).missing) text.old text.new }
{
    let count = modules::missing_count(records);
    decimal_after(text, b"missing ", count);
    text.put(b"\n");
    for k in 0..count {
        put_name(text, modules::missing_name(missing, k));
        text.put(b"\n");
    }
}

// Puts the lines of a register: its modules, and its missing names.
pub(crate) fn put_register(text: &mut Text, records: &[u8], names: &[u8], missing: &[u8])
    requires { is_register records.now names.now missing.now ≡ true }
    ensures { Puts
        (module_lines (register_of records.now names.now missing.now).modules
        ++ missing_lines (register_of records.now names.now missing.now).missing)
        text.old text.new }
{
    put_modules(text, records, names);
    put_missing(text, records, missing);
}
