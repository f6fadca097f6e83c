// Auditing an array: whether its parity columns are the sums of its data columns.
#![tactic(auto)]

mod auditing;
mod comparing;

pub use auditing::audit;
