// The verdicts of rows, each straight from what it means.
use crate::book::{Board, Book, Spot};
use crate::scale::{Pair, Scale, shows_spans};
use command::{MeasureName, SheetKind};
use network::Distances;
use plan::{Statement, Window};
use std::alloc::{AllocError, Global};
use std::ops::Range;

// A sheet as it is drawn.
#[derive(Drop)]
pub(crate) struct Drawing<'a> {
    pub(crate) heap: Global,
    pub(crate) book: &'a Book,
    pub(crate) measure: MeasureName,
    kind: SheetKind,
    scale: Scale,
    // the verdicts of the rows so far
    rows: Vec<Board>,
}

fn lies_in(distance: u32, distances: Distances) -> bool {
    distances.from <= distance && distances.upto.is_none_or(|most| distance <= most)
}

// Whether a place has at least the threshold.
fn passes(verdicts: &[i32], place: u32, threshold: i32) -> bool {
    verdicts
        .get(place as usize)
        .is_some_and(|verdict| *verdict >= threshold)
}

impl<'a> Drawing<'a> {
    // Draws every row.
    pub(crate) fn new(
        heap: Global,
        book: &'a Book,
        kind: SheetKind,
        measure: MeasureName,
    ) -> Result<Drawing<'a>, AllocError> {
        let mut drawing = Drawing {
            heap,
            book,
            kind,
            scale: Scale::from(kind),
            measure,
            rows: Vec::new(heap),
        };
        for statement in book.rows.as_slice() {
            let board = drawing.board(*statement)?;
            drawing.rows.push(board)?;
        }
        Ok(drawing)
    }

    // The verdicts of a statement over the rows so far.
    fn board(&self, statement: Statement) -> Result<Board, AllocError> {
        let mut board = Vec::with_capacity(self.heap, self.book.spots())?;
        for step in 0..self.book.size.steps {
            for place in 0..self.book.size.places {
                board.push(self.verdict(statement, Spot { step, place })?)?;
            }
        }
        Ok(board)
    }

    // The verdict of a row that is drawn.
    fn at(&self, row: u32, spot: Spot) -> Pair {
        self.book
            .pair_at(self.rows.as_slice(), row, spot)
            .unwrap_or_default()
    }

    fn verdict(&self, statement: Statement, spot: Spot) -> Result<Pair, AllocError> {
        let step = spot.step;
        let verdict = match statement {
            Statement::AtLeast { channel, limit } => {
                let reading = self.book.cell(channel, spot).unwrap_or_default();
                Pair {
                    low: self.scale.judge(reading.low, limit),
                    high: self.scale.judge(reading.high, limit),
                }
            }
            Statement::Not { row } => {
                let old = self.at(row, spot);
                Pair {
                    low: self.scale.opposite(old.high),
                    high: self.scale.opposite(old.low),
                }
            }
            Statement::And { left, right } => self.at(left, spot).meet(self.at(right, spot)),
            Statement::Or { left, right } => self.at(left, spot).join(self.at(right, spot)),
            Statement::Until(window) => {
                let first = step.saturating_add(window.from);
                let end = step.saturating_add(window.upto).saturating_add(1);
                self.best(window, spot, first..end.min(self.book.size.steps))
            }
            Statement::Since(window) => {
                let first = step.saturating_sub(window.upto);
                let end = step.saturating_add(1).saturating_sub(window.from);
                self.best(window, spot, first..end)
            }
            Statement::Reach {
                through,
                goal,
                distances,
            } => Pair {
                low: self.reach(through, goal, distances, spot, |pair| pair.low)?,
                high: self.reach(through, goal, distances, spot, |pair| pair.high)?,
            },
            Statement::Yes => Pair::level(self.scale.top()),
        };
        Ok(verdict)
    }

    // The best of some steps: the goal then, with `hold` at every step from then to the spot's.
    fn best(&self, window: Window, spot: Spot, thens: Range<u32>) -> Pair {
        let mut best = Pair::level(self.scale.bottom());
        for then in thens {
            let mut worst = self.at(window.goal, Spot { step: then, ..spot });
            for step in spot.step.min(then)..=spot.step.max(then) {
                worst = worst.meet(self.at(window.hold, Spot { step, ..spot }));
            }
            best = best.join(worst);
        }
        best
    }

    // One end of a row's verdicts at a step, by place.
    fn column<F: Fn(Pair) -> i32>(
        &self,
        row: u32,
        step: u32,
        end: F,
    ) -> Result<Vec<i32>, AllocError>
        requires { F.IsAlwaysCallable end }
    {
        (0..self.book.size.places)
            .map(|place| end(self.at(row, Spot { step, place })))
            .collect(self.heap)
    }

    // The best threshold that some route in the interval keeps to: `through` at every place but the last, `goal` there.
    fn reach<F: Fn(Pair) -> i32>(
        &self,
        through: u32,
        goal: u32,
        distances: Distances,
        spot: Spot,
        end: F,
    ) -> Result<i32, AllocError>
        requires { F.IsAlwaysCallable end }
    {
        let through = self.column(through, spot.step, &end)?;
        let goal = self.column(goal, spot.step, &end)?;
        let mut best = self.scale.bottom();
        for threshold in through.iter().chain(goal.iter()).copied() {
            if threshold <= best {
                continue;
            }
            let ends = self.walk(spot, |place| passes(through.as_slice(), place, threshold))?;
            if ends.iter().any(|(end, distance)| {
                lies_in(*distance, distances) && passes(goal.as_slice(), *end, threshold)
            }) {
                best = threshold;
            }
        }
        Ok(best)
    }

    // Writes for each place the place and the last row's verdicts by step.
    pub(crate) fn write(&self, out: &mut String) -> Result<(), AllocError> {
        let Some(last) = self.rows.last() else {
            return Ok(());
        };
        for place in 0..self.book.size.places {
            write!(out, "{place}")?;
            for step in 0..self.book.size.steps {
                let spot = Spot { step, place };
                if let Some(index) = self.book.index(spot)
                    && let Some(Pair { low, high }) = last.get(index).copied()
                {
                    out.push_str(" ")?;
                    self.scale.write(low, out)?;
                    if shows_spans(self.kind) {
                        out.push_str("..")?;
                        self.scale.write(high, out)?;
                    }
                }
            }
            out.push_str("\n")?;
        }
        Ok(())
    }
}
