// What the linker does: the steps of cro/mod.rs, the three calls and their outcomes, defined in specs/, and the theorems about them.
// There is no code but the types that the steps hand on, and the numbers of refusals.
#![tactic(auto)]

pub mod call;
pub mod rebase;
pub mod refusal;
