// Sums over lent symbols: the symbol at any position of a column, and a parity at any position.
#![tactic(auto)]

mod parity;
mod position;
mod rule;

pub use position::{symbol_at, symbol_from};
pub use rule::ParityRule;
