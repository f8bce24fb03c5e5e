// What a command buffer asks for.
use linker_spec::call::Call;

// One of the linker's calls; an initialize or load with another address than the source; a command that is only acknowledged; or none.
#[derive(Clone, Copy)]
pub enum Command {
    Call(Call),
    Elsewhere,
    Acknowledged,
    Unknown,
}
