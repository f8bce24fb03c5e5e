// Command buffers: addresses in the window, at which a title's words stand and the reply goes.
// The desk's own accesses are no touches: each is lent a trace that nobody reads.
ghost use Rattle.std.specs.Prelude.{◌≡◌, ◌*◌, [], ◌∷◌};
ghost use Rattle.desk_spec.specs.Command.{buffer_word, in_place, initialize_asked, load_asked, id_at, command_at, header, done_reply, loaded_reply, error_reply, reply_to, replied};
ghost use Rattle.window.specs.Memory.{◌⊕◌, put_word};

use desk_spec::command::Command;
use linker_spec::call::Call;
use linker_spec::rebase::LoadArguments;

// The result of an initialize or load that was refused.
const ERROR_NOT_LOADED: u32 = 0xD901_2402;

// Where word i of the buffer at p lies.
fn word_place(p: u32, i: u8) -> u32
    ensures { result ≡ p ⊕ 4 * i }
{
    std::num::wrapping_add_u32(p, 4 * (i as u32))
}

// Word i of the buffer at p.
fn get(at: u32, w: &[u8], p: u32, i: u8) -> u32
    ensures { result ≡ buffer_word at w.now p i }
{
    let mut trace = [0u8; 16];
    window::read32(at, w, &mut trace[..], word_place(p, i))
}

// Makes it v.
fn set(at: u32, w: &mut [u8], p: u32, i: u8, v: u32)
    ensures { w.new ≡ put_word at w.old (p ⊕ 4 * i) v }
{
    let mut trace = [0u8; 16];
    window::write32(at, w, &mut trace[..], word_place(p, i), v);
}

// Whether a module is to run where its bytes are.
fn in_place(source: u32, address: u32) -> bool
    ensures { result ≡ in_place source address }
{
    if address == 0 {
        return true;
    }
    address == source
}

// initialize(source, size, address)
fn initialize_asked(at: u32, w: &[u8], p: u32) -> Command
    ensures { result ≡ initialize_asked (buffer_word at w.now p) }
{
    let source = get(at, w, p, 1);
    if !in_place(source, get(at, w, p, 3)) {
        return Command::Elsewhere;
    }
    Command::Call(Call::Initialize(source, get(at, w, p, 2)))
}

// LoadCRO(source, address, size, data segment, 0, data size, bss segment, bss size, auto link, fix level)
fn load_asked(at: u32, w: &[u8], p: u32) -> Command
    ensures { result ≡ load_asked (buffer_word at w.now p) }
{
    let source = get(at, w, p, 1);
    if !in_place(source, get(at, w, p, 2)) {
        return Command::Elsewhere;
    }
    let given = LoadArguments {
        base: source,
        size: get(at, w, p, 3),
        data_segment: get(at, w, p, 4),
        data_segment_size: get(at, w, p, 6),
        bss_segment: get(at, w, p, 7),
        bss_segment_size: get(at, w, p, 8),
    };
    let auto_link = get(at, w, p, 9) % 256;
    Command::Call(Call::Load(given, auto_link, get(at, w, p, 10)))
}

// The command's id.
pub fn id_at(at: u32, w: &[u8], p: u32) -> u16
    ensures { result ≡ id_at at w.now p }
{
    (get(at, w, p, 0) / 65536) as u16
}

// What the buffer at p asks for.
pub fn command_at(at: u32, w: &[u8], p: u32) -> Command
    ensures { result ≡ command_at at w.now p }
{
    match id_at(at, w, p) {
        1 => initialize_asked(at, w, p),
        2 | 3 | 6 | 7 | 8 => Command::Acknowledged,
        4 | 9 => load_asked(at, w, p),
        5 => Command::Call(Call::Unload(get(at, w, p, 1))),
        _ => Command::Unknown,
    }
}

// A reply's first word: the id, and how many words follow.
fn header(id: u16, count: u8) -> u32
    ensures { result ≡ header id count }
{
    (id as u32) * 65536 + (count as u32) * 64
}

// Replies with a result alone.
fn reply_result(at: u32, w: &mut [u8], p: u32, id: u16, res: u32)
    ensures { w.new ≡ replied at w.old p 0 (header id 1 ∷ res ∷ []) }
{
    set(at, w, p, 0, header(id, 1));
    set(at, w, p, 1, res);
}

// Replies that the command is done.
pub fn reply_done(at: u32, w: &mut [u8], p: u32, id: u16)
    ensures { w.new ≡ replied at w.old p 0 (done_reply id) }
{
    reply_result(at, w, p, id, 0);
}

// Replies that an initialize or load was refused.
pub fn reply_error(at: u32, w: &mut [u8], p: u32, id: u16)
    ensures { w.new ≡ replied at w.old p 0 (error_reply id) }
{
    reply_result(at, w, p, id, ERROR_NOT_LOADED);
}

// Replies that a load is done, and how much of the module is left.
fn reply_loaded(at: u32, w: &mut [u8], p: u32, id: u16, fixed: u32)
    ensures { w.new ≡ replied at w.old p 0 (loaded_reply id fixed) }
{
    set(at, w, p, 0, header(id, 2));
    set(at, w, p, 1, 0);
    set(at, w, p, 2, fixed);
}

// Replies to a call by what it gave.
pub fn reply_to(at: u32, w: &mut [u8], p: u32, id: u16, call: Call, number: u32, value: u32)
    ensures { w.new ≡ replied at w.old p 0 (reply_to call id number value) }
{
    match call {
        Call::Initialize(_, _) => {
            if number != 0 {
                reply_error(at, w, p, id);
                return;
            }
            reply_done(at, w, p, id);
        }
        Call::Load(_, _, _) => {
            if number != 0 {
                reply_error(at, w, p, id);
                return;
            }
            reply_loaded(at, w, p, id, value);
        }
        Call::Unload(_) => reply_done(at, w, p, id),
    }
}
