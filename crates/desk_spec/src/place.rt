// Callers' places at a desk, by their number.

// What changes at a desk: the place's caller sent a buffer, both given; or its oldest buffer was served.
#[derive(Clone, Copy)]
pub enum Change {
    Sent(usize, u32, u32),
    Served(usize),
}
