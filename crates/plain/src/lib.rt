// A second monitor, told apart from the first at a glance: it asks for each threshold whether some route keeps to it, and
// follows the pipes one at a time. It shares the types of jobs and nothing else. It is proved to be safe and to end; what it
// answers is compared with what the first answers, and not proved.
#![tactic(auto)]

mod book;
mod checks;
mod drawing;
mod fault;
mod misread;
mod scale;
mod walk;
mod witness;

pub use misread::{Line, Misread};
pub use witness::Witness;
