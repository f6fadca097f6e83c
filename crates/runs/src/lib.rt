// Whole runs of calls on an array.
#![tactic(auto)]

mod calls;
mod hand;
mod quoted;
mod running;
mod stepping;

pub use calls::{Answer, Call, Outcome};
pub use running::run;
pub use stepping::step;
