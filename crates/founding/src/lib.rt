// Founding an array: over any store, and in lent memory.
#![tactic(auto)]

mod founding;
mod memory;

pub use founding::found;
pub use memory::found_in;
