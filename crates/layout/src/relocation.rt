// What a relocation writes, and the write.
ghost use Rattle.std.specs.Prelude.{◌≡◌};
ghost use Rattle.window.specs.Trace.{run_t};
ghost use Rattle.layout.specs.Relocation.Relocation.{relocated_word, apply_relocation};

use crate::format::RelocationType;

fn relocated_word(kind: RelocationType, addend: u32, symbol: u32, target_final: u32) -> Option<u32>
    ensures { result ≡ relocated_word kind addend symbol target_final }
{
    match kind {
        RelocationType::Nothing => None,
        RelocationType::AbsoluteAddress => Some(std::num::wrapping_add_u32(symbol, addend)),
        RelocationType::RelativeAddress => {
            Some(std::num::wrapping_sub_u32(
                std::num::wrapping_add_u32(symbol, addend),
                target_final,
            ))
        }
        RelocationType::ThumbBranch => None,
        RelocationType::ArmBranch => None,
        RelocationType::ModifyArmBranch => None,
        RelocationType::AlignedRelativeAddress => None,
        RelocationType::Unknown(_) => None,
    }
}

// Applies one relocation. The word counts from `target_final`, and is written at `target`.
pub fn apply_relocation(
    at: u32,
    w: &mut [u8],
    trace: &mut [u8],
    target: u32,
    kind: RelocationType,
    addend: u32,
    symbol: u32,
    target_final: u32,
)
    ensures { (w.new, trace.new) ≡ (run_t at (apply_relocation target kind addend symbol target_final) (w.old, trace.old)).1 }
{
    let Some(word) = relocated_word(kind, addend, symbol, target_final) else {
        return;
    };
    window::write32_privileged(at, w, trace, target, word);
}
