// The three calls, as values.
use crate::rebase::LoadArguments;

// A call with its arguments; a load's last two are auto-link, a number as C gives it, and the fix level.
#[derive(Clone, Copy)]
pub enum Call {
    Initialize(u32, u32),
    Load(LoadArguments, u32, u32),
    Unload(u32),
}
