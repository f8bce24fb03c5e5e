// How far a loop over the entries of a table may go at once: entries wholly outside the window read as 0, and what is written there is dropped.
ghost use Rattle.std.specs.Prelude.{◌≡◌};
ghost use Rattle.window.specs.Outside.{stride_of, silent_stride};

use crate::{place_of, said};

// From the entry at `entry` of `size` bytes on, of which `left` are left: past all that lie wholly outside a window of n bytes, at least one.
pub fn stride(at: u32, n: usize, entry: u32, size: u32, left: u32) -> u32
    ensures { result ≡ stride_of at n entry size left }
{
    let place = place_of(at, entry);
    if place < n {
        return 1;
    }
    if size == 0 {
        return 1;
    }
    let fit = (0x1_0000_0000 - place) / (size as usize);
    if fit < 1 {
        return 1;
    }
    if fit < (left as usize) {
        return fit as u32;
    }
    left
}

// The same once a touch is kept. Before that 1: the first entry outside has its touch to leave.
pub fn silent_stride(at: u32, n: usize, trace: &[u8], entry: u32, size: u32, left: u32) -> u32
    ensures { result ≡ silent_stride at n trace.now entry size left }
{
    if place_of(at, entry) < n {
        return 1;
    }
    if !said(trace) {
        return 1;
    }
    stride(at, n, entry, size, left)
}
