// Arrays and texts that are drawn from a seed, for trying things out, and checksums of what comes of them.
#![tactic(auto)]

mod checksums;
mod digits;
mod random;
mod texts;

pub use checksums::{checksum, column_checksum, text_checksum};
pub use digits::Digits;
pub use random::Random;
pub use texts::text_of;
