// The vending route that the programs demo and sales play: its readings, and how a shape and a stand are printed.
#![tactic(auto)]

mod readings;
mod told;

pub use readings::{cells, reading};
pub use told::{InWords, Told};
