// The lists that the title walks from the static module, whose next field heads one and whose previous field heads the other.
// A list's head keeps its tail in its previous field, and the tail has no next.
ghost use Rattle.std.specs.Prelude.{◌≡◌};
ghost use Rattle.window.specs.Trace.{run_t};
ghost use Rattle.linker_spec.specs.Lists.{head_field, becomes_head, becomes_tail, register, head_leaves, middle_leaves, new_tail, tail_leaves, other_leaves, leaves, unregister};

use layout::fields::{field, set_field};
use layout::header::{NEXT_CRO, PREVIOUS_CRO};

// Which field of the static module heads the list of modules that link on their own, or of the others.
fn head_field(auto_link: bool) -> u32
    ensures { result ≡ head_field auto_link }
{
    if auto_link {
        return NEXT_CRO;
    }
    PREVIOUS_CRO
}

fn become_head(at: u32, w: &mut [u8], trace: &mut [u8], crs: u32, x: u32, base: u32)
    ensures { (w.new, trace.new) ≡ (run_t at (becomes_head crs x base) (w.old, trace.old)).1 }
{
    set_field(at, w, trace, crs, x, base);
    set_field(at, w, trace, base, PREVIOUS_CRO, base);
}

fn become_tail(at: u32, w: &mut [u8], trace: &mut [u8], head: u32, base: u32)
    ensures { (w.new, trace.new) ≡ (run_t at (becomes_tail head base) (w.old, trace.old)).1 }
{
    let tail = field(at, w, trace, head, PREVIOUS_CRO);
    set_field(at, w, trace, tail, NEXT_CRO, base);
    set_field(at, w, trace, base, PREVIOUS_CRO, tail);
    set_field(at, w, trace, head, PREVIOUS_CRO, base);
}

// Puts a module at the end of its list.
pub(crate) fn register(
    at: u32,
    w: &mut [u8],
    trace: &mut [u8],
    crs: u32,
    base: u32,
    auto_link: bool,
)
    ensures { (w.new, trace.new) ≡ (run_t at (register crs base auto_link) (w.old, trace.old)).1 }
{
    let x = head_field(auto_link);
    let head = field(at, w, trace, crs, x);
    if head == 0 {
        become_head(at, w, trace, crs, x, base);
    } else {
        become_tail(at, w, trace, head, base);
    }
    set_field(at, w, trace, base, NEXT_CRO, 0);
}

// The head leaves: the one after it heads the list now and keeps the tail.
fn head_leaves(at: u32, w: &mut [u8], trace: &mut [u8], crs: u32, x: u32, next: u32, previous: u32)
    ensures { (w.new, trace.new) ≡ (run_t at (head_leaves crs x next previous) (w.old, trace.old)).1 }
{
    if next != 0 {
        set_field(at, w, trace, next, PREVIOUS_CRO, previous);
    }
    set_field(at, w, trace, crs, x, next);
}

fn middle_leaves(at: u32, w: &mut [u8], trace: &mut [u8], next: u32, previous: u32)
    ensures { (w.new, trace.new) ≡ (run_t at (middle_leaves next previous) (w.old, trace.old)).1 }
{
    set_field(at, w, trace, previous, NEXT_CRO, next);
    set_field(at, w, trace, next, PREVIOUS_CRO, previous);
}

// A head whose tail leaves gets the one before it.
fn new_tail(at: u32, w: &mut [u8], trace: &mut [u8], crs: u32, x: u32, base: u32, previous: u32)
    ensures { (w.new, trace.new) ≡ (run_t at (new_tail crs x base previous) (w.old, trace.old)).1 }
{
    let head = field(at, w, trace, crs, x);
    if head == 0 {
        return;
    }
    if field(at, w, trace, head, PREVIOUS_CRO) != base {
        return;
    }
    set_field(at, w, trace, head, PREVIOUS_CRO, previous);
}

fn tail_leaves(at: u32, w: &mut [u8], trace: &mut [u8], crs: u32, base: u32, previous: u32)
    ensures { (w.new, trace.new) ≡ (run_t at (tail_leaves crs base previous) (w.old, trace.old)).1 }
{
    set_field(at, w, trace, previous, NEXT_CRO, 0);
    new_tail(at, w, trace, crs, NEXT_CRO, base, previous);
    new_tail(at, w, trace, crs, PREVIOUS_CRO, base, previous);
}

// One that heads no list leaves.
fn other_leaves(
    at: u32,
    w: &mut [u8],
    trace: &mut [u8],
    crs: u32,
    base: u32,
    next: u32,
    previous: u32,
)
    ensures { (w.new, trace.new) ≡ (run_t at (other_leaves crs base next previous) (w.old, trace.old)).1 }
{
    if next == 0 {
        tail_leaves(at, w, trace, crs, base, previous);
        return;
    }
    middle_leaves(at, w, trace, next, previous);
}

fn leaves(at: u32, w: &mut [u8], trace: &mut [u8], crs: u32, base: u32, next: u32, previous: u32)
    ensures { (w.new, trace.new) ≡ (run_t at (leaves crs base next previous) (w.old, trace.old)).1 }
{
    if field(at, w, trace, crs, NEXT_CRO) == base {
        head_leaves(at, w, trace, crs, NEXT_CRO, next, previous);
        return;
    }
    if field(at, w, trace, crs, PREVIOUS_CRO) == base {
        head_leaves(at, w, trace, crs, PREVIOUS_CRO, next, previous);
        return;
    }
    other_leaves(at, w, trace, crs, base, next, previous);
}

// Takes a module out of the list it is in; one whose previous is 0 is in none.
pub(crate) fn unregister(at: u32, w: &mut [u8], trace: &mut [u8], crs: u32, base: u32)
    ensures { (w.new, trace.new) ≡ (run_t at (unregister crs base) (w.old, trace.old)).1 }
{
    let next = field(at, w, trace, base, NEXT_CRO);
    let previous = field(at, w, trace, base, PREVIOUS_CRO);
    if previous == 0 {
        return;
    }
    leaves(at, w, trace, crs, base, next, previous);
    set_field(at, w, trace, base, NEXT_CRO, 0);
    set_field(at, w, trace, base, PREVIOUS_CRO, 0);
}
