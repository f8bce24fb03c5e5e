// A window on a 32-bit address space: its first address `at` and its bytes `w`. Every sum of addresses wraps at 2^32.
// The test of a window and the five accesses stand here, names in `name`; other crates index a window only at places that `row` gave.
// Each access says whether any of its bytes lay outside: the lent trace keeps where the first such access started.
// Only this crate looks into a trace, and it is total in the trace's length.
#![tactic(auto)]

pub mod name;
mod name_rows;
pub mod outside;
mod plain;
pub mod row;

ghost use Rattle.std.specs.Prelude.{◌≡◌, ◌+◌, ◌<◌, ◌≤◌, ◌&&◌, length, nat_le};
ghost use Rattle.window.specs.Memory.{place, good_window};
ghost use Rattle.window.specs.Word.{word_in, high_word_in, set_word_in};
ghost use Rattle.window.specs.Access.{get8, get32, put8, put32, put32_privileged};
ghost use Rattle.window.specs.Trace.{outside, said, noted, saw, touch_of, run_t};

// Whether a host may lend such a window: pages of 4,096 bytes, at least one, none past 2^32 (number 3's rule).
pub fn good_window(at: u32, w: &[u8]) -> bool
    ensures { result ≡ good_window at w.now }
{
    if at % 4096 != 0 {
        return false;
    }
    let n = w.len();
    if n % 4096 != 0 {
        return false;
    }
    if n == 0 {
        return false;
    }
    (at as usize) + n <= 0x1_0000_0000
}

// Where the address x stands among the bytes of a window that starts at `at`.
fn place_of(at: u32, x: u32) -> usize
    ensures { result ≡ place at x }
{
    std::num::wrapping_sub_u32(x, at) as usize
}

// The byte at x, 0 outside.
pub fn read8(at: u32, w: &[u8], trace: &mut [u8], x: u32) -> u8
    ensures { (result, (w.now, trace.new)) ≡ run_t at (get8 x) (w.now, trace.old) }
{
    let i = place_of(at, x);
    if i < w.len() {
        return w[i];
    }
    note(trace, x);
    0
}

// Stores b at x, unless x is outside.
pub fn write8(at: u32, w: &mut [u8], trace: &mut [u8], x: u32, b: u8)
    ensures { (w.new, trace.new) ≡ (run_t at (put8 x b) (w.old, trace.old)).1 }
{
    let i = place_of(at, x);
    if i < w.len() {
        w[i] = b;
        return;
    }
    note(trace, x);
}

// The word at x, lowest byte first.
pub fn read32(at: u32, w: &[u8], trace: &mut [u8], x: u32) -> u32
    ensures { (result, (w.now, trace.new)) ≡ run_t at (get32 x) (w.now, trace.old) }
{
    let i = place_of(at, x);
    if 0xFFFF_FFFC < i {
        return read32_at_edge(at, &w[..], trace, x);
    }
    if w.len() < i + 4 {
        return read32_at_edge(at, &w[..], trace, x);
    }
    load32(w, i)
}

// Stores the word v at x, lowest byte first; bytes outside are dropped.
pub fn write32(at: u32, w: &mut [u8], trace: &mut [u8], x: u32, v: u32)
    ensures { (w.new, trace.new) ≡ (run_t at (put32 x v) (w.old, trace.old)).1 }
{
    let i = place_of(at, x);
    if 0xFFFF_FFFC < i {
        write32_at_edge(at, w, trace, x, v);
        return;
    }
    if w.len() < i + 4 {
        write32_at_edge(at, w, trace, x, v);
        return;
    }
    store32(w, i, v);
}

// Stores the word v upward from x, lowest byte first, and stops at the first byte outside.
pub fn write32_privileged(at: u32, w: &mut [u8], trace: &mut [u8], x: u32, v: u32)
    ensures { (w.new, trace.new) ≡ (run_t at (put32_privileged x v) (w.old, trace.old)).1 }
{
    let i = place_of(at, x);
    if 0xFFFF_FFFC < i {
        write32_privileged_at_edge(at, w, trace, x, v);
        return;
    }
    if w.len() < i + 4 {
        write32_privileged_at_edge(at, w, trace, x, v);
        return;
    }
    store32(w, i, v);
}

// The word accesses where not all bytes are in a row inside. They stand apart, and two tests lead to each, so that the compiler
// puts the inside path of an access into its callers and leaves this one a call. It is lent `&w[..]`, which is made for the call
// alone: for `w` itself every caller of the access would keep address and length in memory, also where all bytes are inside.
fn read32_at_edge(at: u32, w: &[u8], trace: &mut [u8], x: u32) -> u32
    ensures { (result, (w.now, trace.new)) ≡ run_t at (get32 x) (w.now, trace.old) }
{
    if all_outside(place_of(at, x), w.len()) {
        note(trace, x);
        return 0;
    }
    note_word(at, w.len(), trace, x);
    plain::read32_split(at, w, x)
}

fn write32_at_edge(at: u32, w: &mut [u8], trace: &mut [u8], x: u32, v: u32)
    ensures { (w.new, trace.new) ≡ (run_t at (put32 x v) (w.old, trace.old)).1 }
{
    if all_outside(place_of(at, x), w.len()) {
        note(trace, x);
        return;
    }
    note_word(at, w.len(), trace, x);
    plain::write32_split(at, w, x, v);
}

fn write32_privileged_at_edge(at: u32, w: &mut [u8], trace: &mut [u8], x: u32, v: u32)
    ensures { (w.new, trace.new) ≡ (run_t at (put32_privileged x v) (w.old, trace.old)).1 }
{
    note_word(at, w.len(), trace, x);
    plain::write32_upward(at, w, x, v);
}

// Whether the four bytes from place i on are in a row, and none of them among n.
fn all_outside(i: usize, n: usize) -> bool
    ensures { result ≡ (nat_le i 0xffff_fffc && nat_le n i) }
{
    if 0xFFFF_FFFC < i {
        return false;
    }
    n <= i
}

// Whether an access with a byte outside is kept.
pub fn said(trace: &[u8]) -> bool
    ensures { result ≡ said trace.now }
{
    plain::read32(0, trace, 4) != 0
}

// 1 where an access with a byte outside is kept, else 0.
pub fn touched(trace: &[u8]) -> u32
    ensures { result ≡ (touch_of trace.now).0 }
{
    plain::read32(0, trace, 4)
}

// Where that access started.
pub fn first(trace: &[u8]) -> u32
    ensures { result ≡ (touch_of trace.now).1 }
{
    plain::read32(0, trace, 8)
}

// Keeps x, unless an earlier access is kept.
fn note(trace: &mut [u8], x: u32)
    ensures { trace.new ≡ noted x trace.old }
{
    if said(trace) {
        return;
    }
    plain::write32(0, trace, 4, 1);
    plain::write32(0, trace, 8, x);
}

// Keeps a word's access from x on, if one of its bytes is outside.
fn note_word(at: u32, n: usize, trace: &mut [u8], x: u32)
    ensures { trace.new ≡ saw at n x 4 trace.old }
{
    if word_outside(at, n, x) {
        note(trace, x);
    }
}

// Whether one of the four bytes from x on is none of the n from `at` on.
fn word_outside(at: u32, n: usize, x: u32) -> bool
    ensures { result ≡ outside at n x 4 }
{
    if n <= place_of(at, x) {
        return true;
    }
    if n <= place_of(at, std::num::wrapping_add_u32(x, 1)) {
        return true;
    }
    if n <= place_of(at, std::num::wrapping_add_u32(x, 2)) {
        return true;
    }
    if n <= place_of(at, std::num::wrapping_add_u32(x, 3)) {
        return true;
    }
    false
}

fn wide(b: u8) -> u32
    ensures { (result ≡ b) × (result < 256) }
{
    b as u32
}

// The word of the four bytes from place i on.
pub fn load32(w: &[u8], i: usize) -> u32
    requires { i + 4 ≤ length w.now }
    ensures { result ≡ word_in w.now i }
{
    wide(w[i]) + 256 * (wide(w[i + 1]) + 256 * (wide(w[i + 2]) + 256 * wide(w[i + 3])))
}

// The same four bytes, highest first: such numbers stand in the order of their bytes.
fn high32(w: &[u8], i: usize) -> u32
    requires { i + 4 ≤ length w.now }
    ensures { result ≡ high_word_in w.now i }
{
    wide(w[i + 3]) + 256 * (wide(w[i + 2]) + 256 * (wide(w[i + 1]) + 256 * wide(w[i])))
}

// Stores the word v in the four bytes from place i on.
pub fn store32(w: &mut [u8], i: usize, v: u32)
    requires { i + 4 ≤ length w.old }
    ensures { w.new ≡ set_word_in w.old i v }
{
    w[i] = (v % 256) as u8;
    w[i + 1] = (v / 256 % 256) as u8;
    w[i + 2] = (v / 256 / 256 % 256) as u8;
    w[i + 3] = (v / 256 / 256 / 256 % 256) as u8;
}
