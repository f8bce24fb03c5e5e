// Whether no two relocated words overlap, wherever the image and the lent areas are.
ghost use Rattle.std.specs.Prelude.{◌≡◌, ◌^◌, ◌≤◌};
ghost use Rattle.history.specs.Image.{externals, internals, count};
ghost use Rattle.writer_spec.specs.All.{all_below};
ghost use Rattle.writer_spec.specs.Description.{file_of};
ghost use Rattle.writer_spec.specs.Words.{word_count, number_of_word, words_clear, places_apart, far_clear, past_image, far_past, words_apart, far_words_apart};
ghost use Rattle.writer.specs.Apart.{key_of, is_somewhere, apart_between, apart_from, clear_of, far_from, next_number, ExternalFirst};

use crate::words;
use crate::words::Words;
use writer_spec::words::{Room, WordPlace};

// Whether two words at these offsets of one area do not overlap.
fn words_clear(c: usize, e: usize) -> bool
    ensures { result ≡ words_clear c e }
{
    words::ends_by(c, e) || words::ends_by(e, c)
}

// Whether two words do not overlap, as far as they are in one area.
#[tactic(auto, unfolding(writer_spec::specs::Words::places_apart))]
fn places_apart(a: WordPlace, b: WordPlace) -> bool
    ensures { result ≡ places_apart a b }
{
    match (a, b) {
        (WordPlace::InImage(c), WordPlace::InImage(e)) => words_clear(c, e),
        (WordPlace::InData(c), WordPlace::InData(e)) => words_clear(c as usize, e as usize),
        (WordPlace::InBss(c), WordPlace::InBss(e)) => words_clear(c as usize, e as usize),
        _ => true,
    }
}

// A number by which words ascend: those of the image, then those of the lent data, then those of the lent bss.
fn key(word: WordPlace) -> usize
    ensures { result ≡ key_of word }
{
    match word {
        WordPlace::InImage(c) => c,
        WordPlace::InData(t) => 0x4_0000_0000 + (t as usize),
        WordPlace::InBss(t) => 0x8_0000_0000 + (t as usize),
        WordPlace::Nowhere => 0,
    }
}

fn is_somewhere(word: WordPlace) -> bool
    ensures { result ≡ is_somewhere word }
{
    !matches!(word, WordPlace::Nowhere)
}

// Whether a word overlaps none of those with numbers from `from` to `to`.
fn apart_between(words: &Words, word: WordPlace, from: usize, to: usize) -> bool
    requires { (from ≤ to) × (to ≤ word_count (file_of words.now.bytes.now)) }
    ensures { result ≡ apart_between (file_of words.now.bytes.now) words.now.kinds.now words.now.room word from to }
{
    (from..to).all(|i| places_apart(words.get(i), word))
}

// Whether a word overlaps none of the first i external and the first j internal ones.
#[tactic(auto, unfolding(crate::specs::Apart::apart_from, writer_spec::specs::Words::word_count))]
fn apart_from(words: &Words, word: WordPlace, i: u32, j: u32) -> bool
    requires { (i ≤ count (file_of words.now.bytes.now) externals) × (j ≤ count (file_of words.now.bytes.now) internals) }
    ensures { result ≡ apart_from (file_of words.now.bytes.now) words.now.kinds.now words.now.room word i j }
{
    let external = words.external_count as usize;
    apart_between(words, word, 0, i as usize)
        && apart_between(words, word, external, external + (j as usize))
}

// Of the next words, external i and internal j, the external one comes first if it is there and is not past the internal one.
#[tactic(auto, unfolding(writer_spec::specs::Words::word_count))]
fn external_first(words: &Words, i: u32, j: u32) -> bool
    ensures { ExternalFirst (file_of words.now.bytes.now) i j result }
{
    let external = words.external_count;
    if external <= i {
        return false;
    }
    if words.internal_count <= j {
        return true;
    }
    key(words.get(i as usize)) <= key(words.get((external as usize) + (j as usize)))
}

// The number of the one that comes first.
fn next_number(external_first: bool, external: u32, i: u32, j: u32) -> usize
    ensures { result ≡ next_number external_first external i j }
{
    if external_first {
        i as usize
    } else {
        (external as usize) + (j as usize)
    }
}

// Whether a word overlaps none of those walked, the first i external and the first j internal ones, of which `last` is the greatest key: one that
// is past it does not.
#[tactic(auto, unfolding(crate::specs::Apart::clear_of))]
fn clear_of(words: &Words, word: WordPlace, i: u32, j: u32, last: usize) -> bool
    requires { (i ≤ count (file_of words.now.bytes.now) externals) × (j ≤ count (file_of words.now.bytes.now) internals) }
    ensures { result ≡ clear_of (file_of words.now.bytes.now) words.now.kinds.now words.now.room word i j last }
{
    !is_somewhere(word) || words::ends_by(last, key(word)) || apart_from(words, word, i, j)
}

// Whether no two words of one area overlap. Both tables are walked at once, the lower word first, so tables that ascend are walked once.
pub(crate) fn words_apart(words: &Words) -> bool
    ensures { result ≡ words_apart (file_of words.now.bytes.now) words.now.kinds.now words.now.room }
{
    let external = words.external_count;
    let internal = words.internal_count;
    let mut i = 0;
    let mut j = 0;
    let mut last = 0;
    for _turn in 0..(external as usize) + (internal as usize) {
        let first = external_first(words, i, j);
        let word = words.get(next_number(first, external, i, j));
        if !clear_of(words, word, i, j, last) {
            return false;
        }
        last = last.max(key(word));
        if first {
            i += 1;
        } else {
            j += 1;
        }
    }
    true
}

// Whether a word e bytes past the image's end overlaps none at offset t of an area that can start `start` to `start + free` bytes past it.
fn far_clear(e: usize, t: u32, start: u32, free: usize) -> bool
    requires { free ≤ 2 ^ 32 }
    ensures { result ≡ far_clear e t start free }
{
    words::ends_by(e, (start as usize) + (t as usize))
        || (start as usize) + ((t as usize) + (free + 3)) < e
}

// Whether a word e bytes past the image's end overlaps this one in no place.
#[tactic(auto, unfolding(writer_spec::specs::Words::far_past))]
fn far_past(room: Room, e: usize, word: WordPlace) -> bool
    ensures { result ≡ far_past room e word }
{
    let free = words::free(room);
    match word {
        WordPlace::InData(t) => { far_clear(e, t, 0, free) && far_clear(e, t, room.bss_size, free) }
        WordPlace::InBss(t) => far_clear(e, t, 0, free),
        WordPlace::InImage(_) | WordPlace::Nowhere => true,
    }
}

// How many bytes past the image's end a word starts; 0 for one that does not.
#[tactic(auto, unfolding(writer_spec::specs::Words::past_image))]
fn past_image(room: Room, word: WordPlace) -> usize
    ensures { result ≡ past_image room word }
{
    match word {
        WordPlace::InImage(c) => c.saturating_sub(room.size as usize),
        WordPlace::InData(_) | WordPlace::InBss(_) | WordPlace::Nowhere => 0,
    }
}

// Whether a word overlaps no word of the lent areas in any place, if it starts past the image's end.
fn far_word_apart(words: &Words, word: WordPlace) -> bool
    ensures { result ≡ far_from (file_of words.now.bytes.now) words.now.kinds.now words.now.room word }
{
    let e = past_image(words.room, word);
    e == 0 || (0..words.count()).all(|k| far_past(words.room, e, words.get(k)))
}

// Whether no word past the image's end does.
pub(crate) fn far_words_apart(words: &Words) -> bool
    ensures { result ≡ far_words_apart (file_of words.now.bytes.now) words.now.kinds.now words.now.room }
{
    (0..words.count()).all(|i| far_word_apart(words, words.get(i)))
}
