// A pipe of the network.

// Leads from one place to another, and stands from its first step to its last, both counted.
#[derive(Clone, Copy, PartialEq, Eq, Debug)]
pub struct Pipe {
    pub from: u32,
    pub to: u32,
    pub length: u32,
    pub drop: u32,
    pub first: u32,
    pub last: u32,
}
