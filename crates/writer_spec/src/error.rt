// Why the writer's two calls refuse.
ghost use Rattle.std.specs.Prelude.{◌≡◌};
ghost use Rattle.writer_spec.specs.Outcome.{number};

#[derive(Clone, Copy, Debug, PartialEq, Eq)]
pub enum ImageError {
    // A description that makes no image which is well laid in every place, or an image that is shorter than it says.
    Malformed,
    // A buffer that is too short.
    NoRoom,
}

// The number by which C knows it.
impl From<ImageError> for u32 {
    ghost from_gives = { λ refusal n. n ≡ number refusal };

    fn from(refusal: ImageError) -> u32 {
        match refusal {
            ImageError::Malformed => 6,
            ImageError::NoRoom => 7,
        }
    }
}
