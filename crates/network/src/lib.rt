// The network: pipes, and the measures of distance along them.
#![tactic(auto)]

mod distances;
mod measure;
mod pipe;

pub use distances::Distances;
pub use measure::{Drops, Hops, Lengths, Measure};
pub use pipe::Pipe;
