// Exports that wait in the free bytes after a record until all are known: two words each.
ghost use Rattle.std.specs.Prelude.{◌≡◌, ◌+◌, ◌-◌, ◌≤◌, [], ◌∷◌, ◌++◌, length};
ghost use Rattle.std.proofs.lemmas.List.Edits.{sets};
ghost use Rattle.register.specs.Words.{flat, part};

// Puts two words at `from`, before those that stand from there up to `to`.
pub fn insert_waiting(buffer: &mut [u8], from: usize, to: usize, place: u32, address: u32)
    requires { (from ≤ to) × (to + 8 ≤ length buffer.old) }
    ensures { buffer.new
        ≡ sets buffer.old from (flat (place ∷ address ∷ []) ++ part buffer.old from (to - from)) }
{
    buffer.copy_within(from..to, from + 8);
    window::store32(buffer, from, place);
    window::store32(buffer, from + 4, address);
}
