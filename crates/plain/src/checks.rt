// Whether a job's book takes what a line asks for.
use crate::book::{Book, LEAST, MOST, Spot};
use crate::fault::Fault;
use crate::scale::shows_spans;
use command::SheetKind;
use network::{Distances, Pipe};
use plan::{Row, Size, Statement};
use reading::Entry;

pub(crate) fn check_size(size: Size) -> Result<(), Fault> {
    let allowed = (1..=32).contains(&size.places)
        && (1..=64).contains(&size.steps)
        && (1..=4).contains(&size.channels);
    if !allowed {
        return Err(Fault::BadSize);
    }
    Ok(())
}

fn check_steps(from: u32, upto: u32) -> Result<(), Fault> {
    if from > upto || upto > 63 {
        return Err(Fault::BadInterval);
    }
    Ok(())
}

fn check_distances(distances: Distances) -> Result<(), Fault> {
    let most = distances.upto.unwrap_or(127);
    if distances.from > most || most > 127 {
        return Err(Fault::BadInterval);
    }
    Ok(())
}

impl Book {
    pub(crate) fn check_pipe(&self, pipe: Pipe) -> Result<(), Fault> {
        if pipe.from >= self.size.places || pipe.to >= self.size.places {
            return Err(Fault::BadPlace);
        }
        if pipe.first > pipe.last || pipe.last >= self.size.steps {
            return Err(Fault::BadStep);
        }
        if pipe.length > 1_000 || pipe.drop > 1_000 {
            return Err(Fault::PipeTooLarge);
        }
        if self.pipes.len() >= 255 {
            return Err(Fault::ManyPipes);
        }
        Ok(())
    }

    // Whether two rows are written.
    fn check_written(&self, first: u32, second: u32) -> Result<(), Fault> {
        if first.max(second) as usize >= self.rows.len() {
            return Err(Fault::BadRow);
        }
        Ok(())
    }

    // What a statement itself says.
    fn check_statement(&self, statement: Statement) -> Result<(), Fault> {
        match statement {
            Statement::AtLeast { channel, limit } => {
                if channel >= self.size.channels || !(LEAST..=MOST).contains(&limit) {
                    return Err(Fault::BadChannel);
                }
                Ok(())
            }
            Statement::Not { row } => self.check_written(row, row),
            Statement::And { left, right } | Statement::Or { left, right } => {
                self.check_written(left, right)
            }
            Statement::Until(window) | Statement::Since(window) => {
                self.check_written(window.hold, window.goal)?;
                check_steps(window.from, window.upto)
            }
            Statement::Reach {
                through,
                goal,
                distances,
            } => {
                self.check_written(through, goal)?;
                check_distances(distances)
            }
            Statement::Yes => Ok(()),
        }
    }

    pub(crate) fn check_row(&self, row: Row) -> Result<(), Fault> {
        self.check_statement(row.ok_or(Fault::BadCode)?)?;
        if self.rows.len() >= 32 {
            return Err(Fault::ManyRows);
        }
        Ok(())
    }

    pub(crate) fn check_cells(&self) -> Result<(), Fault> {
        let Size {
            places,
            steps,
            channels,
        } = self.size;
        if places.saturating_mul(steps).saturating_mul(channels) > 1_024 {
            return Err(Fault::ManyCells);
        }
        Ok(())
    }

    pub(crate) fn check_entry(&self, entry: Entry) -> Result<(), Fault> {
        let spot = Spot {
            step: entry.step,
            place: entry.place,
        };
        let cell = self.cell(entry.channel, spot).ok_or(Fault::BadCell)?;
        if entry.low > entry.high || entry.low < LEAST || entry.high > MOST {
            return Err(Fault::BadRange);
        }
        if entry.low < cell.low || entry.high > cell.high {
            return Err(Fault::Outside);
        }
        Ok(())
    }

    // Whether each cell has an exact reading.
    fn is_exact(&self) -> bool {
        self.cells
            .iter()
            .all(|board| board.iter().all(|cell| cell.low == cell.high))
    }

    pub(crate) fn check_sheet(&self, kind: SheetKind) -> Result<(), Fault> {
        let Size { places, steps, .. } = self.size;
        let board = places.saturating_mul(steps) as usize;
        if self.rows.is_empty() {
            return Err(Fault::NoRows);
        }
        if self.rows.len().saturating_mul(board) > 2_048 {
            return Err(Fault::ManyVerdicts);
        }
        if places > 16 {
            return Err(Fault::ManyPlaces);
        }
        if !shows_spans(kind) && !self.is_exact() {
            return Err(Fault::Inexact);
        }
        Ok(())
    }
}
