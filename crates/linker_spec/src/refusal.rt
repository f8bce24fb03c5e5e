// Why a call is refused, and why a rebase is.
ghost use Rattle.std.specs.Prelude.{◌≡◌};
ghost use Rattle.linker_spec.specs.Refusal.{refusal_number, rebase_refusal};

// A row of the table of numbers each; 0 is no refusal.
#[derive(Clone, Copy)]
pub enum Refusal {
    NotACro,
    BadSegment,
    BadWindow,
    NoRegister,
    NoRoom,
}

impl From<Refusal> for u32 {
    ghost from_gives = { λ refusal number. number ≡ refusal_number refusal };

    fn from(refusal: Refusal) -> u32 {
        match refusal {
            Refusal::NotACro => 1,
            Refusal::BadSegment => 2,
            Refusal::BadWindow => 3,
            Refusal::NoRegister => 4,
            Refusal::NoRoom => 5,
        }
    }
}

// A module that is none, or whose segments have no place.
#[derive(Clone, Copy)]
pub enum RebaseError {
    NotACro,
    BadSegment,
}

impl From<RebaseError> for Refusal {
    ghost from_gives = { λ error refusal. refusal ≡ rebase_refusal error };

    fn from(error: RebaseError) -> Refusal {
        match error {
            RebaseError::NotACro => Refusal::NotACro,
            RebaseError::BadSegment => Refusal::BadSegment,
        }
    }
}
