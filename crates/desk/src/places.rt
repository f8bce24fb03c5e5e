// Callers' places at a desk, in lent bytes: 148 words, as desk_spec has them.
ghost use Rattle.std.specs.Prelude.{◌≡◌, ◌<◌, ◌≤◌, length, drop};
ghost use Rattle.desk_spec.specs.declared.place.Change.TheVariants.{Sent, Served};
ghost use Rattle.desk_spec.specs.Desk.{Place, place_at, with_place, place_of, oldest, changed_place, place_after, changed, first_waiting};
ghost use Rattle.desk_spec.specs.Bytes.{desk_of, place_word, desk_word, with_desk};
ghost use Rattle.desk_spec.specs.Outcome.{turn_at, send_outcome};

use desk_spec::place::Change;
use register::words::word;

// A desk's bytes and words, and the words of a place.
const LENGTH: usize = 592;

const WORDS: usize = 148;

const PLACE_WORDS: usize = 18;

// The most places, and the most buffers that wait at one.
const MOST_PLACES: u32 = 8;

const MOST_WAITING: u32 = 16;

// How many places are taken.
fn taken(desk: &[u8; LENGTH]) -> usize
    ensures { (result ≡ length (desk_of desk.now).places) × (result ≤ 8) }
{
    word(desk, 0).min(MOST_PLACES) as usize
}

// Word f of place i: its caller, the buffers waiting, then those; 0 where nobody has the place.
fn place_word(desk: &[u8; LENGTH], i: usize, f: usize) -> u32
    ensures { result ≡ place_word (place_at (desk_of desk.now).places i) f }
{
    if taken(desk) <= i {
        return 0;
    }
    let start = 4 + PLACE_WORDS * i;
    if f == 0 {
        return word(desk, start);
    }
    let waiting = word(desk, start + 1).min(MOST_WAITING);
    if f == 1 {
        return waiting;
    }
    if (waiting as usize) <= f - 2 {
        return 0;
    }
    word(desk, start + f)
}

// The number of the caller's place; of one that has none, the number behind the last.
fn place_of(desk: &[u8; LENGTH], caller: u32) -> usize
    ensures { result ≡ place_of caller (desk_of desk.now).places }
{
    let n = taken(desk);
    for i in 0..n {
        if place_word(desk, i, 0) == caller {
            return i;
        }
    }
    n
}

// The first place from a number on at which a buffer waits.
fn first_waiting(desk: &[u8; LENGTH], from: usize) -> Option<usize>
    ensures { result ≡ first_waiting from (drop from (desk_of desk.now).places) }
{
    for i in from..taken(desk) {
        if place_word(desk, i, 1) != 0 {
            return Some(i);
        }
    }
    None
}

// The place that the next turn looks at first.
fn next(desk: &[u8; LENGTH]) -> u32
    ensures { result ≡ (desk_of desk.now).next }
{
    word(desk, 1).min(MOST_PLACES)
}

// The place that a turn serves, or none where nobody waits; a desk of fewer than 592 bytes has no places.
pub fn turn_at(desk: &[u8]) -> Option<usize>
    ensures { result ≡ turn_at desk.now }
{
    let desk = desk.first_chunk::<LENGTH>()?;
    first_waiting(desk, next(desk) as usize).or_else(|| first_waiting(desk, 0))
}

// The caller at the place that a turn serves.
pub fn caller_at(desk: &[u8], place: usize) -> u32
    requires { turn_at desk.now ≡ Some place }
    ensures { result ≡ (place_at (desk_of desk.now).places place).caller }
{
    place_word(desk.first_chunk().unwrap(), place, 0)
}

// The oldest buffer that waits there.
pub fn oldest_at(desk: &[u8], place: usize) -> u32
    requires { turn_at desk.now ≡ Some place }
    ensures { result ≡ oldest (place_at (desk_of desk.now).places place) }
{
    place_word(desk.first_chunk().unwrap(), place, 2)
}

// Word f of a place once a buffer of its caller has come to the end of its queue.
fn sent_word(desk: &[u8; LENGTH], i: usize, caller: u32, buffer: u32, f: usize) -> u32
    ensures { result ≡ place_word (place_after (Sent i caller buffer) (place_at (desk_of desk.now).places i)) f }
{
    if f == 0 {
        return caller;
    }
    let waiting = place_word(desk, i, 1);
    if f == 1 {
        return waiting + 1;
    }
    if f - 2 == (waiting as usize) {
        return buffer;
    }
    place_word(desk, i, f)
}

// Word f of a place once the oldest buffer has left its queue.
fn served_word(desk: &[u8; LENGTH], i: usize, f: usize) -> u32
    requires { f < 18 }
    ensures { result ≡ place_word (place_after (Served i) (place_at (desk_of desk.now).places i)) f }
{
    if f == 0 {
        return place_word(desk, i, 0);
    }
    if 1 < f {
        return place_word(desk, i, f + 1);
    }
    let waiting = place_word(desk, i, 1);
    if waiting == 0 {
        return 0;
    }
    waiting - 1
}

// Word f of place j after a change.
fn place_word_after(desk: &[u8; LENGTH], change: Change, j: usize, f: usize) -> u32
    requires { (changed_place change ≤ length (desk_of desk.now).places) × (f < 18) }
    ensures { result ≡ place_word (place_at (changed change (desk_of desk.now)).places j) f }
{
    match change {
        Change::Sent(i, caller, buffer) => {
            if i == j {
                return sent_word(desk, i, caller, buffer, f);
            }
            place_word(desk, j, f)
        }
        Change::Served(i) => {
            if i == j {
                return served_word(desk, i, f);
            }
            place_word(desk, j, f)
        }
    }
}

// How many places are taken once place i has changed, which may be a new one.
fn taken_with(desk: &[u8; LENGTH], i: usize) -> u32
    ensures { (p : Place) → result ≡ length (with_place (desk_of desk.now).places i p) }
{
    let n = taken(desk);
    if n <= i {
        return (n as u32) + 1;
    }
    n as u32
}

// The places taken after a change.
fn taken_after(desk: &[u8; LENGTH], change: Change) -> u32
    ensures { result ≡ length (changed change (desk_of desk.now)).places }
{
    match change {
        Change::Sent(i, _, _) => taken_with(desk, i),
        Change::Served(i) => taken_with(desk, i),
    }
}

// The place that the next turn looks at first after a change.
fn next_after(desk: &[u8; LENGTH], change: Change) -> u32
    requires { changed_place change ≤ length (desk_of desk.now).places }
    ensures { result ≡ (changed change (desk_of desk.now)).next }
{
    match change {
        Change::Sent(_, _, _) => next(desk),
        Change::Served(i) => (i as u32) + 1,
    }
}

// Word k of a desk after a change.
fn word_after(desk: &[u8; LENGTH], change: Change, k: usize) -> u32
    requires { changed_place change ≤ length (desk_of desk.now).places }
    ensures { result ≡ desk_word (changed change (desk_of desk.now)) k }
{
    if k == 0 {
        return taken_after(desk, change);
    }
    if k == 1 {
        return next_after(desk, change);
    }
    if k < 4 {
        return 0;
    }
    place_word_after(desk, change, (k - 4) / PLACE_WORDS, (k - 4) % PLACE_WORDS)
}

// Makes a change: every word of the desk is written, the unused ones 0, and the bytes past it stay.
fn make_change(desk: &mut [u8], change: Change)
    requires { (592 ≤ length desk.old) × (changed_place change ≤ length (desk_of desk.old).places) }
    ensures { desk.new ≡ with_desk (changed change (desk_of desk.old)) desk.old }
{
    let before = *desk.first_chunk::<LENGTH>().unwrap();
    for k in 0..WORDS {
        window::store32(desk, 4 * k, word_after(&before, change, k));
    }
}

// Puts a buffer at the end of its caller's queue: 0, or 8 for a ninth caller or a seventeenth buffer, or where there is no desk.
// A number and no error enum: C gets it as it is, and there is one refusal.
pub fn send(desk: &mut [u8], caller: u32, buffer: u32) -> u32
    ensures { (result, 0, desk.new) ≡ send_outcome caller buffer desk.old }
{
    let Some(before) = desk.first_chunk::<LENGTH>() else {
        return 8;
    };
    let place = place_of(before, caller);
    if (MOST_PLACES as usize) <= place {
        return 8;
    }
    if MOST_WAITING <= place_word(before, place, 1) {
        return 8;
    }
    make_change(desk, Change::Sent(place, caller, buffer));
    0
}

// Takes the oldest buffer from the place that a turn serves.
pub fn take_oldest(desk: &mut [u8], place: usize)
    requires { turn_at desk.old ≡ Some place }
    ensures { desk.new ≡ with_desk (changed (Served place) (desk_of desk.old)) desk.old }
{
    make_change(desk, Change::Served(place));
}
