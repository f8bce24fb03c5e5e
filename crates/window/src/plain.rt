// The accesses without a trace: what they read and store, in a window and in a trace itself.
ghost use Rattle.std.specs.Prelude.{◌≡◌, ◌+◌, ◌&&◌, nat_le};
ghost use Rattle.window.specs.Memory.{byte_at, word_at, put_byte, put_word, put_privileged};

use crate::{load32, place_of, store32, wide};

// The byte at x, 0 outside.
pub(crate) fn read8(at: u32, w: &[u8], x: u32) -> u8
    ensures { result ≡ byte_at at w.now x }
{
    let i = place_of(at, x);
    if i < w.len() { w[i] } else { 0 }
}

// Stores b at x, unless x is outside.
pub(crate) fn write8(at: u32, w: &mut [u8], x: u32, b: u8)
    ensures { w.new ≡ put_byte at w.old x b }
{
    let i = place_of(at, x);
    if i < w.len() {
        w[i] = b;
    }
}

// The word at x, lowest byte first.
pub(crate) fn read32(at: u32, w: &[u8], x: u32) -> u32
    ensures { result ≡ word_at at w.now x }
{
    let i = place_of(at, x);
    if whole(i, w.len()) {
        return load32(w, i);
    }
    read32_split(at, w, x)
}

// Stores the word v at x, lowest byte first; bytes outside are dropped.
pub(crate) fn write32(at: u32, w: &mut [u8], x: u32, v: u32)
    ensures { w.new ≡ put_word at w.old x v }
{
    let i = place_of(at, x);
    if whole(i, w.len()) {
        store32(w, i, v);
        return;
    }
    write32_split(at, w, x, v);
}

// Whether the four bytes from place i on are all among n.
fn whole(i: usize, n: usize) -> bool
    ensures { result ≡ (nat_le i 0xffff_fffc && nat_le (i + 4) n) }
{
    if 0xFFFF_FFFC < i {
        return false;
    }
    i + 4 <= n
}

// The word at x, byte by byte: any of them may be outside.
pub(crate) fn read32_split(at: u32, w: &[u8], x: u32) -> u32
    ensures { result ≡ word_at at w.now x }
{
    let b0 = wide(read8(at, w, x));
    let b1 = wide(read8(at, w, std::num::wrapping_add_u32(x, 1)));
    let b2 = wide(read8(at, w, std::num::wrapping_add_u32(x, 2)));
    let b3 = wide(read8(at, w, std::num::wrapping_add_u32(x, 3)));
    b0 + 256 * (b1 + 256 * (b2 + 256 * b3))
}

// Stores the word v at x, byte by byte: any of them may be outside.
pub(crate) fn write32_split(at: u32, w: &mut [u8], x: u32, v: u32)
    ensures { w.new ≡ put_word at w.old x v }
{
    let x1 = std::num::wrapping_add_u32(x, 1);
    let x2 = std::num::wrapping_add_u32(x, 2);
    let x3 = std::num::wrapping_add_u32(x, 3);
    write8(at, w, x, (v % 256) as u8);
    write8(at, w, x1, (v / 256 % 256) as u8);
    write8(at, w, x2, (v / 256 / 256 % 256) as u8);
    write8(at, w, x3, (v / 256 / 256 / 256 % 256) as u8);
}

// Stores the word v upward from x, byte by byte, up to the first one outside.
pub(crate) fn write32_upward(at: u32, w: &mut [u8], x: u32, v: u32)
    ensures { w.new ≡ put_privileged at w.old x v }
{
    let mut y = x;
    let mut rest = v;
    for k in 0u32..4 {
        let i = place_of(at, y);
        if w.len() <= i {
            return;
        }
        w[i] = (rest % 256) as u8;
        y = std::num::wrapping_add_u32(y, 1);
        rest = rest / 256;
    }
}
