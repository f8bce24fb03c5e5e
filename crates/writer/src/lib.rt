// The writer of module images: which descriptions it takes, and the image that one makes. The exported calls over it are in `fillqhano`.
#![tactic(auto)]

pub mod accepts;
pub mod apart;
pub mod batches;
pub mod bytes;
pub mod image;
pub mod packed;
pub mod runs;
pub mod strings;
pub mod touched;
pub mod words;
