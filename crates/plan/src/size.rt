// The size of a plan.

// How many places, steps and channels there are.
#[derive(Clone, Copy, PartialEq, Eq, Debug)]
pub struct Size {
    pub places: u32,
    pub steps: u32,
    pub channels: u32,
}
