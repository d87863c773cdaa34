// Rows over space: reach at one step, by levels of distance in lent work.
#![tactic(auto)]

mod levels;
mod reach;

pub use reach::{fill_levels, level_verdict};
