// The service desk's code: callers' queues in lent bytes (`places`), and command buffers in the window (`command`).
#![tactic(auto)]

pub mod command;
pub mod places;
