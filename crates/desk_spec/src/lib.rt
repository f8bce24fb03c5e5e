// What the service desk does: definitions in specs/; no code but the types that its functions hand on.
#![tactic(auto)]

pub mod command;
pub mod place;
