// Why there is no text: the input is refused, which is printed in its place, or memory ran out.
ghost use Rattle.std.specs.Prelude.{◌≡◌};
ghost use Rattle.report.specs.declared.failure.Failure.TheVariants.{Refused, NoMemory};

use code::Refusal;
use std::alloc::AllocError;

#[derive(Drop)]
pub(crate) enum Failure {
    Refused(Refusal),
    NoMemory(AllocError),
}

// Written out, here and below: of the `From` that a derive writes, a proof knows nothing.
impl From<Refusal> for Failure {
    ghost from_gives = { λ refusal failure. failure ≡ Refused refusal };

    fn from(refusal: Refusal) -> Failure {
        Failure::Refused(refusal)
    }
}

impl From<AllocError> for Failure {
    ghost from_gives = { λ e failure. failure ≡ NoMemory e };

    fn from(e: AllocError) -> Failure {
        Failure::NoMemory(e)
    }
}
