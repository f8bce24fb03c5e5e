// The linker: the port of cro/mod.rs, a module a step, with the Rust's names. The three calls stand in `calls`; `fillqhano` exports them.
// What each step does is defined in `linker_spec`; specs/ here says what helpers leave, in terms of those definitions.
#![tactic(auto)]

pub mod calls;
mod entries;
mod entry;
mod exports;
mod fix;
mod imports;
mod internal;
mod lists;
mod rebase;
mod record;
mod relocation;
mod resets;
mod sorted;
mod sources;
mod touches;
mod unrebase;
mod waiting;
