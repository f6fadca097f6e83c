// The code: its refusals, its shapes and their numbers. What it sums is defined in specs/Parities.antt.
#![tactic(auto)]

mod numbers;
mod refusal;
mod shape;

pub use refusal::Refusal;
pub use shape::Shape;
