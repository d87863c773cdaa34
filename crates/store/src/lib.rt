// Stores: what is known of every cell, and how more becomes known.
#![tactic(auto)]

mod readings;
mod table;

pub use readings::{Readings, Store};
pub use table::Table;
