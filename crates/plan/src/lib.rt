// Plans: a draft takes pipes and rows, and nothing else.
#![tactic(auto)]

mod draft;
mod size;
mod statement;

pub use draft::Draft;
pub use size::Size;
pub use statement::{Row, Statement, Window};
