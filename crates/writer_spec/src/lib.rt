// What the writer of module images does: definitions in specs/; no code but the types that its functions hand on, and the numbers of its errors.
#![tactic(auto)]

pub mod error;
pub mod words;
