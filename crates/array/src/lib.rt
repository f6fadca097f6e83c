// Arrays, and what the calls on an array have in common: their checks and their steps.
#![tactic(auto)]

mod array;
mod checks;
mod steps;

pub use array::Array;
pub use checks::{check_fit, check_room, lowest_lost};
pub use steps::{admit, clear, drop_column, read, write};
