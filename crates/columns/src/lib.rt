// What founding, rebuilding and auditing do with whole columns.
#![tactic(auto)]

mod loading;
mod parities;

pub use loading::load_data;
pub use parities::write_parity;
