// Names that two rows of bytes of one length begin with: a zero or the row's end ends each.
ghost use Rattle.std.specs.Prelude.{◌≡◌, ◌+◌, ◌-◌, ◌≤◌, true, false, ◌≢◌, length, drop};
ghost use Rattle.window.specs.Word.{word_in};
ghost use Rattle.window.specs.Name.{order_of, ended, NonZero};

use std::cmp::Ordering;

// Whether one of the four bytes from i on is 0.
fn has_zero(a: &[u8], i: usize) -> bool
    requires { i + 4 ≤ length a.now }
    ensures { (result ≡ false → NonZero a.now i) × (result ≡ true → NonZero a.now i → ⊥) }
{
    if a[i] == 0 {
        return true;
    }
    if a[i + 1] == 0 {
        return true;
    }
    if a[i + 2] == 0 {
        return true;
    }
    a[i + 3] == 0
}

// How many bytes two rows of one length have alike, and none of them 0, a word at a time. The names that they begin with stand in
// the order of what follows, and where that begins with four bytes that are not 0, these differ.
fn rows_alike(a: &[u8], b: &[u8]) -> usize
    requires { length a.now ≡ length b.now }
    ensures { (result ≤ length a.now)
        × (4 ≤ length a.now - result → NonZero a.now result → word_in a.now result ≢ word_in b.now result)
        × (order_of (ended (drop result a.now)) (ended (drop result b.now)) ≡ order_of (ended a.now) (ended b.now)) }
{
    let n = a.len();
    for k in 0..n / 4 {
        let i = 4 * k;
        if crate::load32(a, i) != crate::load32(b, i) {
            return i;
        }
        if has_zero(a, i) {
            return i;
        }
    }
    4 * (n / 4)
}

// The order of the names that two rows of one length begin with from a place on.
fn compare_rows_from(a: &[u8], b: &[u8], from: usize) -> Ordering
    requires { (length a.now ≡ length b.now) × (from ≤ length a.now) }
    ensures { result ≡ order_of (ended (drop from a.now)) (ended (drop from b.now)) }
{
    for i in from..a.len() {
        if a[i] < b[i] {
            return Ordering::Less;
        }
        if b[i] < a[i] {
            return Ordering::Greater;
        }
        if a[i] == 0 {
            return Ordering::Equal;
        }
    }
    Ordering::Equal
}

// The order of the names that two rows of one length begin with: a zero or the row's end ends each.
pub(crate) fn compare_rows(a: &[u8], b: &[u8]) -> Ordering
    requires { length a.now ≡ length b.now }
    ensures { result ≡ order_of (ended a.now) (ended b.now) }
{
    let i = rows_alike(a, b);
    if a.len() - i < 4 {
        return compare_rows_from(a, b, i);
    }
    if has_zero(a, i) {
        return compare_rows_from(a, b, i);
    }
    if crate::high32(b, i) < crate::high32(a, i) {
        return Ordering::Greater;
    }
    Ordering::Less
}
