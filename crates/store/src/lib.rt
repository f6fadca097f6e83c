// Column stores: what a store of columns means, and the table store.
#![tactic(auto)]

mod column;
mod over;
mod table;

pub use column::ColumnStore;
pub use table::Table;
