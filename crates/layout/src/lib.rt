// The layout of CRO and CRS modules: header, tags, kinds and segments, as the window has them.
// A port of cro/format.rs, and of those functions of cro/mod.rs that know nothing of the register.
#![tactic(auto)]

pub mod fields;
pub mod format;
pub mod header;
pub mod peek;
pub mod relocation;
pub mod segments;
pub mod tables;
