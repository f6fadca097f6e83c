// Single data symbols: putting one, which the parities follow, and getting one.
#![tactic(auto)]

mod carrying;
mod getting;
mod places;
mod putting;

pub use getting::get;
pub use putting::put;
