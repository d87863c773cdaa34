// The part of a job that a line stands in.
#[derive(Clone, Copy, PartialEq, Eq, Debug)]
pub enum Part {
    // Nothing is opened yet.
    Blank,
    // A plan is being written.
    Drafting,
    // The plan is sealed, and the survey runs.
    Sealed,
}
