// Readings: what is known of a level is a range.
#![tactic(auto)]

mod entry;
mod range;

pub use entry::Entry;
pub use range::{HIGHEST, LOWEST, Range};
