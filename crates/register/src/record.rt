// One record: how many words it takes, and where its names end.
ghost use Rattle.std.specs.Prelude.{◌≡◌};
ghost use Rattle.register.specs.Words.{words_in};
ghost use Rattle.register.specs.Decode.{module_size};

use crate::words;

// The words of the record that the bytes begin with, exactly.
pub fn module_size(bytes: &[u8]) -> usize
    ensures { result ≡ module_size (words_in bytes.now) }
{
    let segments = words::word(bytes, 5) as usize;
    let named = words::word(bytes, 6) as usize;
    let indexed = words::word(bytes, 7) as usize;
    8 + (segments + (3 * named + indexed))
}
