// What the program `rebuild` prints of an input.
#![tactic(auto)]

mod call;
mod failure;
mod head;
mod heads;
mod lines;
mod restore;

pub use call::report;
