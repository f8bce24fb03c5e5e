// The register: the only state between calls, three buffers that the host lends. It knows nothing of the window.
// The buffers are read as words, names and exports here; number 4's test is in `register_test`.
#![tactic(auto)]

pub mod append;
pub mod begin;
pub mod change;
pub mod exports;
pub mod header;
pub mod read;
pub mod record;
pub mod words;
