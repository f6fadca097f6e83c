// What a writer refuses.
use thiserror::Error;

#[derive(Clone, Copy, PartialEq, Eq, Debug, Error)]
#[error("the part is not as long as what is written over it")]
pub struct WrongLength;
