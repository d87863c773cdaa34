// An entry, what is asked to be entered.

// The ends of a level at the cell of a channel, a place and a step. Whether they can be entered is not looked at here.
#[derive(Clone, Copy, PartialEq, Eq, Debug)]
pub struct Entry {
    pub channel: u32,
    pub place: u32,
    pub step: u32,
    pub low: i32,
    pub high: i32,
}
