// Names in a window, and their order.
ghost use Rattle.std.specs.Prelude.{◌≡◌, ◌+◌, ◌-◌, ◌^◌, ◌≤◌, true, ◌≢◌, length, drop};
ghost use Rattle.window.specs.Word.{word_in};
ghost use Rattle.window.specs.Access.{run};
ghost use Rattle.window.specs.Trace.{run_t};
ghost use Rattle.window.specs.Name.{name_at, name_from, no_zero, laid_over, order_of, ended};

use crate::name_rows;
use std::cmp::Ordering;

// Reads the name at `address` into `buffer` and gives its length; the bytes of `buffer` past the name stay. With the name as result,
// lent from `buffer`, no clause could say so of those bytes.
pub fn read_name(at: u32, w: &[u8], trace: &mut [u8], address: u32, buffer: &mut [u8; 512]) -> usize
    ensures { ((result, buffer.new) ≡ laid_over (run_t at (name_at address) (w.now, trace.old)).0 buffer.old) × ((w.now, trace.new) ≡ (run_t at (name_at address) (w.now, trace.old)).1) }
{
    read_into(at, w, trace, address, buffer)
}

// The same for a reader that is no step: what it touches is nobody's, so it drops the trace.
pub fn peek_name(at: u32, w: &[u8], address: u32, buffer: &mut [u8; 512]) -> usize
    ensures { (result, buffer.new) ≡ laid_over (run at (name_at address) w.now).0 buffer.old }
{
    let mut trace = [0u8; 16];
    read_into(at, w, &mut trace[..], address, buffer)
}

// Copies the name at the start of w into `buffer` and gives its length; the bytes of `buffer` past the name stay.
fn copy_name(w: &[u8], buffer: &mut [u8]) -> usize
    requires { (512 ≤ length w.now) × (512 ≤ length buffer.old) }
    ensures { (result, buffer.new) ≡ laid_over (run 0 (name_from 512 0) w.now).0 buffer.old }
{
    for n in 0usize..512 {
        let b = w[n];
        if b == 0 {
            return n;
        }
        buffer[n] = b;
    }
    512
}

// Reads a name into any buffer that is long enough; where 512 bytes are in a row inside, no access is one for the trace.
fn read_into(at: u32, w: &[u8], trace: &mut [u8], address: u32, buffer: &mut [u8]) -> usize
    requires { 512 ≤ length buffer.old }
    ensures { ((result, buffer.new) ≡ laid_over (run_t at (name_at address) (w.now, trace.old)).0 buffer.old) × ((w.now, trace.new) ≡ (run_t at (name_at address) (w.now, trace.old)).1) }
{
    if address == 0 {
        return 0;
    }
    let i = crate::place_of(at, address);
    if in_row(i, 512, w.len()) {
        return copy_name(&w[i..], buffer);
    }
    let mut p = address;
    for n in 0..512 {
        let b = crate::read8(at, w, trace, p);
        if b == 0 {
            return n;
        }
        buffer[n] = b;
        p = std::num::wrapping_add_u32(p, 1);
    }
    512
}

// Makes the accesses of the name at `address` and keeps no byte of it: none at all where 512 bytes are in a row inside, since the
// trace keeps none of those.
pub fn touch_name(at: u32, w: &[u8], trace: &mut [u8], address: u32)
    ensures { (w.now, trace.new) ≡ (run_t at (name_at address) (w.now, trace.old)).1 }
{
    let mut p = address;
    if p == 0 {
        return;
    }
    if in_row(crate::place_of(at, p), 512, w.len()) {
        return;
    }
    for n in 0u32..512 {
        if crate::read8(at, w, trace, p) == 0 {
            return;
        }
        p = std::num::wrapping_add_u32(p, 1);
    }
}

// How many of the first n bytes are alike in both names, a word at a time. The names stand in the order of what follows, and where
// four of the n are left, these differ.
fn alike(a: &[u8], b: &[u8], n: usize) -> usize
    requires { (n ≤ length a.now) × (n ≤ length b.now) }
    ensures { (result ≤ n) × (4 ≤ n - result → word_in a.now result ≢ word_in b.now result)
        × (order_of (drop result a.now) (drop result b.now) ≡ order_of a.now b.now) }
{
    for k in 0..n / 4 {
        let i = 4 * k;
        if crate::load32(a, i) != crate::load32(b, i) {
            return i;
        }
    }
    4 * (n / 4)
}

// The order of what two names have from a place on.
fn compare_from(a: &[u8], b: &[u8], from: usize) -> Ordering
    requires { (from ≤ length a.now) × (from ≤ length b.now) }
    ensures { result ≡ order_of (drop from a.now) (drop from b.now) }
{
    for i in from..a.len().min(b.len()) {
        if a[i] != b[i] {
            return a[i].cmp(&b[i]);
        }
    }
    a.len().cmp(&b.len())
}

// The order of two names as raw bytes, a shorter name before its extensions.
pub fn compare_names(a: &[u8], b: &[u8]) -> Ordering
    ensures { result ≡ order_of a.now b.now }
{
    let n = a.len().min(b.len());
    let i = alike(a, b, n);
    if n - i < 4 {
        return compare_from(a, b, i);
    }
    if crate::high32(b, i) < crate::high32(a, i) {
        return Ordering::Greater;
    }
    Ordering::Less
}

// Whether the `count` bytes from place i on are in a row, and all of them among n.
fn in_row(i: usize, count: usize, n: usize) -> bool
    ensures { result ≡ true → (i + count ≤ 2 ^ 32) × (i + count ≤ n) }
{
    if n < count {
        return false;
    }
    if n - count < i {
        return false;
    }
    i + count <= 0x1_0000_0000
}

// The order of a name, which has no zero, and the one that a row of bytes begins with: a zero or the row's end ends it.
// A zero among as many bytes as the name has is less than the name's byte there, so only the next byte is tested.
fn compare_ended(name: &[u8], row: &[u8]) -> Ordering
    ensures { no_zero name.now ≡ true → result ≡ order_of name.now (ended row.now) }
{
    let n = name.len();
    if n < row.len() && row[n] == 0 {
        return compare_names(name, &row[..n]);
    }
    compare_names(name, row)
}

// The order of a name and the one at `address`, which is copied. It is never in line, since `compare_name_at` then needs no room for
// the copy where there is none.
#[inline(never)]
fn compare_with_copy(at: u32, w: &[u8], name: &[u8], address: u32) -> Ordering
    ensures { result ≡ order_of name.now (run at (name_at address) w.now).0 }
{
    let mut buffer = [0u8; 512];
    let n = peek_name(at, w, address, &mut buffer);
    compare_names(name, &buffer[..n])
}

// The order of a name, which has no zero, and the one at `address`, which is compared where it stands.
pub fn compare_name_at(at: u32, w: &[u8], name: &[u8], address: u32) -> Ordering
    ensures { no_zero name.now ≡ true → result ≡ order_of name.now (run at (name_at address) w.now).0 }
{
    if address != 0 {
        let i = crate::place_of(at, address);
        if in_row(i, 512, w.len()) {
            return compare_ended(name, &w[i..i + 512]);
        }
    }
    compare_with_copy(at, w, name, address)
}

// The order of the names at two addresses, of which the first is copied.
fn compare_copied(at: u32, w: &[u8], first: u32, second: u32) -> Ordering
    ensures { result ≡ order_of (run at (name_at first) w.now).0 (run at (name_at second) w.now).0 }
{
    let mut buffer = [0u8; 512];
    let n = peek_name(at, w, first, &mut buffer);
    compare_name_at(at, w, &buffer[..n], second)
}

// The order of the names at two addresses, which are compared where they stand if 512 bytes from each on are inside.
pub fn compare_names_at(at: u32, w: &[u8], first: u32, second: u32) -> Ordering
    ensures { result ≡ order_of (run at (name_at first) w.now).0 (run at (name_at second) w.now).0 }
{
    let i = crate::place_of(at, first);
    let j = crate::place_of(at, second);
    if first == 0 || !in_row(i, 512, w.len()) {
        return compare_copied(at, &w[..], first, second);
    }
    if second == 0 || !in_row(j, 512, w.len()) {
        return compare_copied(at, &w[..], first, second);
    }
    name_rows::compare_rows(&w[i..i + 512], &w[j..j + 512])
}
