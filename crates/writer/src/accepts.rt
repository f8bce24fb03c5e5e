// Which descriptions the writer takes.
ghost use Rattle.std.specs.Prelude.{◌≡◌, ◌≤◌};
ghost use Rattle.writer_spec.specs.Description.{file_of, up_page};
ghost use Rattle.writer_spec.specs.Words.{words_good};
ghost use Rattle.writer_spec.specs.Accepts.{laid_out, accepts};

use crate::bytes::{EXTERNALS, INTERNALS};
use crate::words::Words;
use crate::{apart, batches, bytes, packed, runs, strings, touched, words};
use layout::header;

// The relocation kinds that write a word.
const WORD_KINDS: [u8; 3] = [2, 3, 10];

// The greatest description whose image has a size below 2^32.
const MOST: usize = 0xFFFF_F000;

// Whether all relocated words are as a well-laid image has them.
#[tactic(auto, unfolding(writer_spec::specs::Words::words_good))]
fn words_good(words: &Words) -> bool
    ensures { result ≡ words_good (file_of words.now.bytes.now) words.now.kinds.now words.now.room }
{
    words::words_inside(words)
        && apart::words_apart(words)
        && apart::far_words_apart(words)
        && touched::words_off(words)
}

// Whether an image of these bytes and this size has a place, and its handler, runs, batches and words are in order in each.
#[tactic(auto, unfolding(writer_spec::specs::Accepts::laid_out))]
pub fn laid_out(bytes: &[u8], kinds: &[u8], size: u32) -> bool
    ensures { result ≡ laid_out (file_of bytes.now) kinds.now size }
{
    let room = words::room_of(bytes, size);
    let handler = bytes::word(bytes, header::ON_UNRESOLVED_SEGMENT_TAG as usize);
    words::place_exists(room)
        && words::usable(bytes, handler)
        && runs::runs_good(bytes)
        && batches::batches_good(bytes)
        && words_good(&Words {
            bytes,
            kinds,
            room,
            external_count: EXTERNALS.count(bytes),
            internal_count: INTERNALS.count(bytes),
        })
}

// The size of the image that a description makes.
pub fn image_size(length: usize) -> u32
    requires { length ≤ 0xfffff000 }
    ensures { result ≡ up_page length }
{
    ((length + 4095) / 4096 * 4096) as u32
}

// Whether the writer takes a description.
#[tactic(auto, using(crate::proofs::accepts::Laws::too_long), unfolding(writer_spec::specs::Accepts::accepts))]
pub fn accepts(description: &[u8]) -> bool
    ensures { result ≡ accepts description.now }
{
    description.len() <= MOST
        && packed::packed(description)
        && strings::named(description)
        && laid_out(description, &WORD_KINDS, image_size(description.len()))
}
