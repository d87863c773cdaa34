// What a job has written so far.
use crate::scale::Pair;
use network::Pipe;
use plan::{Size, Statement};
use reading::Entry;
use std::alloc::{AllocError, Global};

pub(crate) const LEAST: i32 = -1_000_000;

pub(crate) const MOST: i32 = 1_000_000;

// A step and a place.
#[derive(Clone, Copy, PartialEq, Eq, Debug)]
pub(crate) struct Spot {
    pub(crate) step: u32,
    pub(crate) place: u32,
}

// What a channel or a row has at each spot: step by step, and at each step place by place.
pub(crate) type Board = Vec<Pair>;

// A plan and its readings, as plain lists.
#[derive(Drop)]
pub(crate) struct Book {
    pub(crate) size: Size,
    pub(crate) pipes: Vec<Pipe>,
    pub(crate) rows: Vec<Statement>,
    // low and high end of each cell, by channel
    pub(crate) cells: Vec<Board>,
}

impl Book {
    pub(crate) fn new(heap: Global) -> Book {
        Book {
            size: Size {
                places: 0,
                steps: 0,
                channels: 0,
            },
            pipes: Vec::new(heap),
            rows: Vec::new(heap),
            cells: Vec::new(heap),
        }
    }

    // Where a spot stands on a board, if the plan has it.
    pub(crate) fn index(&self, spot: Spot) -> Option<usize> {
        if spot.step >= self.size.steps || spot.place >= self.size.places {
            return None;
        }
        let before = (spot.step as usize).saturating_mul(self.size.places as usize);
        Some(before.saturating_add(spot.place as usize))
    }

    // How many spots a board has.
    pub(crate) fn spots(&self) -> usize {
        (self.size.steps as usize).saturating_mul(self.size.places as usize)
    }

    // What the boards of channels or rows have at a spot.
    pub(crate) fn pair_at(&self, boards: &[Board], number: u32, spot: Spot) -> Option<Pair> {
        let board = boards.get(number as usize)?;
        board.get(self.index(spot)?).copied()
    }

    // Nothing is known of any cell.
    pub(crate) fn fill(&mut self, heap: Global) -> Result<(), AllocError> {
        let unknown = Pair {
            low: LEAST,
            high: MOST,
        };
        let board = vec![in heap; unknown; self.spots()]?;
        self.cells = vec![in heap; board; self.size.channels as usize]?;
        Ok(())
    }

    pub(crate) fn cell(&self, channel: u32, spot: Spot) -> Option<Pair> {
        self.pair_at(self.cells.as_slice(), channel, spot)
    }

    pub(crate) fn enter(&mut self, entry: Entry) {
        let spot = Spot {
            step: entry.step,
            place: entry.place,
        };
        if let Some(index) = self.index(spot)
            && let Some(board) = self.cells.get_mut(entry.channel as usize)
            && let Some(cell) = board.get_mut(index)
        {
            *cell = Pair {
                low: entry.low,
                high: entry.high,
            };
        }
    }
}
