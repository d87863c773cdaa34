// A store that keeps a record only for a cell that is not widest.
#![tactic(auto)]

mod chain;
mod record;

pub use chain::Chain;
