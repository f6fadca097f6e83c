// Kinds of symbol: what is summed, and how it is written down.
#![tactic(auto)]

mod byte;
mod hex;
mod kind;
mod stand;
mod wrong_length;

pub use byte::Byte;
pub use kind::Symbol;
pub use stand::Stand;
pub use wrong_length::WrongLength;
