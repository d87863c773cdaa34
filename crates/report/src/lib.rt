// Reports: refusals and sheets as text.
#![tactic(auto)]

mod block;
mod printout;

pub use printout::Printout;
