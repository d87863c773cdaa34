// An interval of distances.

// From a lower distance to an upper one, both counted. Where the upper one is absent, nothing bounds the distance.
#[derive(Clone, Copy, PartialEq, Eq, Debug)]
pub struct Distances {
    pub from: u32,
    pub upto: Option<u32>,
}
