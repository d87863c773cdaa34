// The full table: one range for each cell.
ghost use Rattle.std.specs.Prelude.{◌≡◌, IfOk};
ghost use Rattle.store.specs.Stored.{fresh};
ghost use Rattle.store.specs.Tables.{table_of};

use crate::readings::{Readings, Store};
use reading::Range;
use refusal::Refusal;
use std::alloc::{AllocError, Global};

#[derive(Drop)]
pub struct Table {
    ranges: Vec<Range>,
}

impl Table {
    // All cells are widest.
    pub fn new(heap: Global, cells: usize) -> Result<Table, AllocError>
        ensures { IfOk result (λ t. table_of t ≡ fresh cells cells) }
    {
        Ok(Table {
            ranges: vec![in heap; Range::widest(); cells]?,
        })
    }
}

impl Readings for Table {
    ghost ranges = { λ t. (table_of t).ranges };

    fn cells(&self) -> usize {
        self.ranges.len()
    }

    fn range(&self, cell: usize) -> Range {
        self.ranges.get(cell).copied().unwrap_or(Range::widest())
    }
}

impl Store for Table {
    ghost most = { λ t. (table_of t).capacity };

    fn capacity(&self) -> usize {
        self.ranges.len()
    }

    fn enter(&mut self, cell: usize, range: Range) -> Result<(), Refusal> {
        if cell >= self.ranges.len() {
            return Err(Refusal::NoSuchCell);
        }
        if !range.lies_inside(self.ranges[cell]) {
            return Err(Refusal::NotInside);
        }
        self.ranges[cell] = range;
        Ok(())
    }
}
