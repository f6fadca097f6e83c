// Losing a column, and rebuilding it from its helpers. Founding has a crate of its own, and its calls are found here too.
#![tactic(auto)]

mod both;
mod listed;
mod losing;
mod quotes;
mod quoting;
mod rebuilding;

pub use both::rebuild_both;
pub use founding::{found, found_in};
pub use losing::{lose, lost_column};
pub use quotes::{BothRejected, Quote, Rejected};
pub use quoting::quote;
pub use rebuilding::rebuild;
