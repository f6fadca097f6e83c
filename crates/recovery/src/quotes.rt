// What a rebuild will cost. A quote allows one rebuild and is gone with it: it can be moved, and not copied.
ghost use Rattle.std.specs.Prelude.{◌≡◌};

use code::Refusal;
use thiserror::Error;

#[derive(Debug, Drop)]
pub struct Quote {
    pub(crate) column: usize,
    pub(crate) count: usize,
}

impl Quote {
    // The lost column.
    pub fn column(&self) -> usize
        ensures { result ≡ self.now.column }
    {
        self.column
    }

    // How many symbols its rebuild reads.
    pub fn count(&self) -> usize
        ensures { result ≡ self.now.count }
    {
        self.count
    }
}

// A refused rebuild hands the quote back.
#[derive(Debug, Drop, Error)]
#[error("{refusal}")]
pub struct Rejected {
    pub refusal: Refusal,
    pub quote: Quote,
}

// Refused rebuilds of two arrays hand both quotes back.
#[derive(Debug, Drop, Error)]
#[error("{refusal}")]
pub struct BothRejected {
    pub refusal: Refusal,
    pub first: Quote,
    pub second: Quote,
}
