// Bytes that stand in a row inside the window: one range test for all of them.
ghost use Rattle.std.specs.Prelude.{◌≡◌};
ghost use Rattle.window.specs.Row.{row_of};

use crate::place_of;

// Where the `count` bytes from x on stand in a row among the n of a window.
pub fn row_of(at: u32, n: usize, x: u32, count: usize) -> Option<usize>
    ensures { result ≡ row_of at n x count }
{
    let place = place_of(at, x);
    if 0x1_0000_0000 - place < count {
        return None;
    }
    if n < place + count {
        return None;
    }
    Some(place)
}
