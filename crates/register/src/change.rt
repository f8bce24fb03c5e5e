// A register with a record less.
pub(crate) mod gap;
pub(crate) mod lower;
pub mod remove;
