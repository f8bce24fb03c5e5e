// The session file, judged whole.
ghost use Rattle.std.specs.Prelude.{◌≡◌};
ghost use Rattle.session.specs.File.{are_steps, is_session};

use crate::head::{are_parts_inside, in_limits, step_count};
use crate::step::Reader;

// Whether the first `count` steps are calls: the reader goes through them.
fn are_steps(file: &[u8], count: u32) -> bool
    ensures { result ≡ are_steps file.now count }
{
    let mut r = Reader::new(file);
    // No `for`: the reader says where it stands (docs/CLAIMS.md, 169).
    while r.next < count {
        if r.next_step().is_none() {
            return false;
        }
        r.advance();
    }
    true
}

// Whether the bytes are a session file.
pub(crate) fn is_session(file: &[u8]) -> bool
    ensures { result ≡ is_session file.now }
{
    if !in_limits(file) {
        return false;
    }
    if !are_parts_inside(file) {
        return false;
    }
    are_steps(file, step_count(file))
}
