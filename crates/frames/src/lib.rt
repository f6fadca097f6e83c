// Frames: a text that stands for an array, checked, read and written in place.
#![tactic(auto)]

mod checks;
mod columns;
mod edits;
mod frame;
mod frame_store;
mod frames;
mod lines;

pub use checks::check;
pub use columns::column_part;
pub use frame::digits;
pub use frames::Frames;
