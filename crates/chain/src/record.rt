// The records of a chain, and the gaps between them.
use reading::Range;

// What is known of one cell, and the index of the record of the next larger cell.
#[derive(Clone, Copy)]
pub(crate) struct Record {
    pub(crate) cell: usize,
    pub(crate) range: Range,
    pub(crate) next: Option<usize>,
}

// The gap where a cell's record would stand: behind `before`, or first where it is none, and before `after`, or last.
#[derive(Clone, Copy)]
pub(crate) struct Between {
    pub(crate) before: Option<usize>,
    pub(crate) after: Option<usize>,
}
