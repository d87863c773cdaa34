// Jobs: from the bytes of a job to the text that it prints.
#![tactic(auto)]

mod job;
mod sheets;
mod turns;

pub use job::{MOST_BYTES, run_job};
