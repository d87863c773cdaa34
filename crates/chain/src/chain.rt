// A store that is a chain of records.
ghost use Rattle.std.specs.Prelude.{◌≡◌, ◌≤◌, ◌<◌, false, IfOk, vec_len, vec_capacity};
ghost use Rattle.reading.specs.Ends.{ends, is_widest};
ghost use Rattle.store.specs.Stored.{fresh, accepted};
ghost use Rattle.chain.specs.Records.{Kept, Gap, Sought};

use crate::record::{Between, Record};
use reading::Range;
use refusal::Refusal;
use std::alloc::{AllocError, Global};
use store::{Readings, Store};

// A record for each cell that is not widest, linked in the order of their cells from `head` on.
#[derive(Drop)]
pub struct Chain {
    cells: usize,
    capacity: usize,
    records: Vec<Record>,
    head: Option<usize>,
    // memory for every record is held from the start
    ghost memory: { capacity ≤ vec_capacity records },
    ghost room: { vec_len records ≤ capacity },
    ghost kept: { Kept cells records.items head },
}

impl Chain {
    ghost use Rattle.chain.specs.Chains.{chain_of};

    // All cells are widest. No memory is asked for after this.
    pub fn new(heap: Global, cells: usize, records: usize) -> Result<Chain, AllocError>
        ensures { IfOk result (λ c. chain_of c ≡ fresh cells records) }
    {
        let unused = Vec::with_capacity(heap, records)?;
        Ok(Chain {
            cells,
            capacity: records,
            records: unused,
            head: None,
        })
    }

    // Walks along the links to the record of a cell, or to the gap where one would stand.
    fn seek(&self, cell: usize) -> Result<usize, Between>
        ensures { Sought self.now.records.items self.now.head cell result }
    {
        let mut before = None;
        let mut after = self.head;
        while let Some(index) = after {
            let seen = self.records[index];
            if seen.cell == cell {
                return Ok(index);
            }
            if seen.cell > cell {
                break;
            }
            before = after;
            after = seen.next;
        }
        Err(Between { before, after })
    }

    // Links in a record behind `before`, for a cell that has none.
    fn link_in(&mut self, before: Option<usize>, added: Record)
        requires within { added.cell < self.old.cells }
        requires room { vec_len self.old.records < self.old.capacity }
        requires gap { Gap self.old.records.items self.old.head added.cell before added.next }
        requires narrow { is_widest (ends added.range) ≡ false }
        ensures { chain_of self.new ≡ accepted (chain_of self.old) added.cell (ends added.range) }
    {
        let index = self.records.len();
        self.records.push_reserved(added);
        match before {
            None => self.head = Some(index),
            Some(last) => self.records[last].next = Some(index),
        }
    }
}

impl Readings for Chain {
    ghost use Rattle.chain.specs.Chains.{chain_of};

    ghost ranges = { λ c. (chain_of c).ranges };

    fn cells(&self) -> usize {
        self.cells
    }

    fn range(&self, cell: usize) -> Range {
        match self.seek(cell) {
            Ok(index) => self.records[index].range,
            Err(_) => Range::widest(),
        }
    }
}

impl Store for Chain {
    ghost use Rattle.chain.specs.Chains.{chain_of};

    ghost most = { λ c. (chain_of c).capacity };

    fn capacity(&self) -> usize {
        self.capacity
    }

    fn enter(&mut self, cell: usize, range: Range) -> Result<(), Refusal> {
        if cell >= self.cells {
            return Err(Refusal::NoSuchCell);
        }
        match self.seek(cell) {
            Ok(index) => {
                if !range.lies_inside(self.records[index].range) {
                    return Err(Refusal::NotInside);
                }
                self.records[index].range = range;
            }
            Err(Between { before, after }) => {
                if range.is_widest() {
                    return Ok(());
                }
                if self.records.len() == self.capacity {
                    return Err(Refusal::StoreFull);
                }
                let added = Record {
                    cell,
                    range,
                    next: after,
                };
                self.link_in(before, added);
            }
        }
        Ok(())
    }
}
