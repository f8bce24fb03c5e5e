// The steps of a session file: one step, and the reader that goes from step to step.
ghost use Rattle.std.specs.Prelude.{◌≡◌, ◌+◌, ◌<◌, ◌^◌};
ghost use Rattle.register.specs.Words.{all_zero};
ghost use Rattle.session.specs.Steps.{step_of, step_at};

use linker_spec::call::Call;
use linker_spec::rebase::LoadArguments;
use register::words::{name_part, word};

// Whether all words are 0.
fn all_zero(words: &[u32]) -> bool
    ensures { result ≡ all_zero words.now }
{
    words.iter().all(|w| *w == 0)
}

// The call that the nine words of a step are, or none; a call has 0 in the words that it does not use.
fn step_of(call: u32, l: LoadArguments, auto_link: u32, fix_level: u32) -> Option<Call>
    ensures { result ≡ step_of call l.base l.size l.data_segment l.data_segment_size l.bss_segment l.bss_segment_size auto_link fix_level }
{
    if call == 2 {
        return Some(Call::Load(l, auto_link, fix_level));
    }
    let load_words = [
        l.data_segment,
        l.data_segment_size,
        l.bss_segment,
        l.bss_segment_size,
        auto_link,
        fix_level,
    ];
    if !all_zero(&load_words) {
        return None;
    }
    if call == 1 {
        return Some(Call::Initialize(l.base, l.size));
    }
    if call != 3 {
        return None;
    }
    if l.size != 0 {
        return None;
    }
    Some(Call::Unload(l.base))
}

// Step number k of the table, which has room for 64 steps.
fn step_at(file: &[u8], k: u32) -> Option<Call>
    ensures { result ≡ step_at file.now k }
{
    let table = name_part(file, word(file, 1), 2304);
    let at = 9 * (k as usize);
    let l = LoadArguments {
        base: word(table, at + 1),
        size: word(table, at + 2),
        data_segment: word(table, at + 3),
        data_segment_size: word(table, at + 4),
        bss_segment: word(table, at + 5),
        bss_segment_size: word(table, at + 6),
    };
    step_of(word(table, at), l, word(table, at + 7), word(table, at + 8))
}

// Reads a session: the lent file, and the number of the next step.
#[derive(Clone, Copy)]
pub struct Reader<'a> {
    file: &'a [u8],
    pub next: u32,
}

impl<'a> Reader<'a> {
    // A reader at the first step.
    pub(crate) fn new(file: &'a [u8]) -> Reader<'a>
        ensures { (result.file ≡ file.entry) × (result.next ≡ 0) }
    {
        Reader { file, next: 0 }
    }

    // The step that the reader stands at.
    pub(crate) fn next_step(self) -> Option<Call>
        ensures { result ≡ step_at self.entry.file.now self.entry.next }
    {
        step_at(self.file, self.next)
    }

    // Goes on to the step after.
    pub(crate) fn advance(&mut self)
        requires { self.old.next + 1 < 2 ^ 32 }
        ensures { (self.new.file ≡ self.old.file) × (self.new.next ≡ self.old.next + 1) }
    {
        self.next += 1;
    }
}
