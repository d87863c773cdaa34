// Making the lines of a job.
use crate::random::Random;
use command::{Command, MeasureName, SheetKind};
use network::{Distances, Pipe};
use plain::{Line, Misread};
use plan::{Row, Size, Statement, Window};
use reading::Entry;
use std::alloc::{AllocError, Global};

// Sizes, limits and distances at their edges and in between.
const LENGTHS: [u32; 12] = [0, 0, 1, 1, 2, 3, 4, 5, 9, 64, 127, 1_000];

const DISTANCES: [u32; 12] = [0, 0, 0, 1, 2, 3, 4, 5, 6, 9, 126, 127];

const LEVELS: [i32; 10] = [0, 1, 2, 3, 5, 8, -4, 50, 51, 49];

const EDGES: [i32; 8] = [
    -1_000_000, 1_000_000, -999_999, 999_999, 1_000_001, -1_000_001, 9_999_999, -9_999_999,
];

fn plan_size(places: u32, steps: u32, channels: u32) -> Size {
    Size {
        places,
        steps,
        channels,
    }
}

fn level(random: &mut Random) -> i32 {
    if random.one_in(12) {
        random.of(&EDGES)
    } else {
        random.of(&LEVELS)
    }
}

fn some_pipe(random: &mut Random, size: Size) -> Pipe {
    let first = random.below(size.steps);
    Pipe {
        from: random.below(size.places),
        to: random.below(size.places),
        length: random.of(&LENGTHS),
        drop: random.of(&LENGTHS),
        first,
        last: first.saturating_add(random.below(size.steps.saturating_sub(first))),
    }
}

// A pipe that is refused, but for luck.
fn odd_pipe(random: &mut Random, size: Size) -> Pipe {
    let mut pipe = some_pipe(random, size);
    match random.below(7) {
        0 => pipe.from = size.places,
        1 => pipe.to = size.places.saturating_add(random.below(9)),
        2 => pipe.last = size.steps,
        3 => pipe.length = 1_001,
        4 => {
            pipe.first = size.steps.saturating_sub(1);
            pipe.last = 0;
        }
        5 => {
            pipe.to = size.places;
            pipe.last = size.steps;
            pipe.drop = 1_001;
        }
        _ => pipe.drop = random.of(&[1_000, 1_001, 9_999_999]),
    }
    pipe
}

// A distance, most often a small one or one at the limit.
fn distance(random: &mut Random) -> u32 {
    if random.one_in(6) {
        random.below(129)
    } else {
        random.of(&DISTANCES)
    }
}

fn some_distances(random: &mut Random) -> Distances {
    let from = distance(random);
    let upto = if random.one_in(3) {
        None
    } else {
        Some(from.saturating_add(distance(random)).min(130))
    };
    Distances { from, upto }
}

fn some_window(random: &mut Random, hold: u32, goal: u32) -> Window {
    let from = if random.one_in(6) {
        random.below(65)
    } else {
        random.below(3)
    };
    Window {
        hold,
        goal,
        from,
        upto: from.saturating_add(random.of(&[0, 1, 2, 61, 62, 63])),
    }
}

// A statement over the first so many rows.
fn some_statement(random: &mut Random, rows: u32, channels: u32) -> Statement {
    let one = random.below(rows);
    let two = random.below(rows);
    let code = if rows == 0 { 1 } else { random.below(12) };
    match code {
        0 => Statement::Yes,
        1 => Statement::AtLeast {
            channel: random.below(channels),
            limit: level(random),
        },
        2 => Statement::Not { row: one },
        3 => Statement::And {
            left: one,
            right: two,
        },
        4 => Statement::Or {
            left: one,
            right: two,
        },
        5 => Statement::Until(some_window(random, one, two)),
        6 => Statement::Since(some_window(random, one, two)),
        _ => Statement::Reach {
            through: one,
            goal: two,
            distances: some_distances(random),
        },
    }
}

// Row 0 reached through itself.
fn reach(from: u32, upto: Option<u32>) -> Statement {
    Statement::Reach {
        through: 0,
        goal: 0,
        distances: Distances { from, upto },
    }
}

// A row that is refused, but for luck.
fn odd_row(random: &mut Random, rows: u32, channels: u32) -> Row {
    let statement = match random.below(8) {
        0 => return None,
        1 => Statement::Not {
            row: random.of(&[rows, 9_999_999]),
        },
        2 => Statement::AtLeast {
            channel: channels,
            limit: 0,
        },
        3 => Statement::AtLeast {
            channel: 0,
            limit: random.of(&EDGES),
        },
        4 => Statement::Until(Window {
            hold: 0,
            goal: 0,
            from: 2,
            upto: random.of(&[1, 2, 63, 64]),
        }),
        5 => Statement::Since(Window {
            hold: 0,
            goal: rows,
            from: 3,
            upto: random.of(&[2, 64]),
        }),
        6 => {
            let from = random.of(&[3, 128]);
            reach(from, if random.one_in(2) { None } else { Some(2) })
        }
        _ => {
            let from = random.of(&[3, 127, 128]);
            reach(from, Some(random.of(&[2, 127, 128])))
        }
    };
    Some(statement)
}

// A statement that is accepted where a row stands and channel 0 is one, but for want of room.
fn good_statement(random: &mut Random) -> Statement {
    match random.below(4) {
        0 => Statement::Not { row: 0 },
        1 => Statement::And { left: 0, right: 0 },
        2 => reach(random.below(4), None),
        _ => Statement::AtLeast {
            channel: 0,
            limit: random.of(&LEVELS),
        },
    }
}

fn some_sheet(random: &mut Random) -> Command {
    Command::DrawSheet {
        kind: random.of(&[
            SheetKind::YesNo,
            SheetKind::Margin,
            SheetKind::YesNoSpan,
            SheetKind::MarginSpan,
        ]),
        measure: random.of(&[MeasureName::Hops, MeasureName::Lengths, MeasureName::Drops]),
    }
}

fn exact_entry(channel: u32, place: u32, step: u32, reading: i32) -> Entry {
    Entry {
        channel,
        place,
        step,
        low: reading,
        high: reading,
    }
}

// A line that is misspelt or out of place, and does no harm where it is in place.
fn stray_line(random: &mut Random) -> Line {
    let command = match random.below(7) {
        0 => return Err(Misread::NoLetter),
        1 => Command::LayPipe(some_pipe(random, plan_size(1, 1, 1))),
        2 => Command::WriteRow(Some(Statement::Yes)),
        3 => Command::Open(plan_size(33, 1, 1)),
        4 => some_sheet(random),
        5 => Command::Enter(exact_entry(0, 0, 0, 1)),
        _ => return Err(Misread::Misspelt),
    };
    Ok(command)
}

// A number below the bound, and now and then the bound itself.
fn nearly_below(random: &mut Random, bound: u32) -> u32 {
    if random.one_in(30) {
        bound
    } else {
        random.below(bound)
    }
}

fn some_entry(random: &mut Random, size: Size) -> Entry {
    let low = level(random);
    Entry {
        channel: nearly_below(random, size.channels),
        place: nearly_below(random, size.places),
        step: nearly_below(random, size.steps),
        low,
        high: if random.one_in(3) {
            level(random)
        } else {
            // a number has 7 digits at the most
            low.saturating_add(random.of(&LEVELS))
                .clamp(-9_999_999, 9_999_999)
        },
    }
}

// A job in the making.
#[derive(Drop)]
struct Making<'a> {
    random: &'a mut Random,
    lines: Vec<Line>,
}

impl Making<'_> {
    fn add(&mut self, command: Command) -> Result<(), AllocError> {
        self.lines.push(Ok(command))?;
        Ok(())
    }

    fn add_row(&mut self, statement: Statement) -> Result<(), AllocError> {
        self.add(Command::WriteRow(Some(statement)))
    }

    fn add_sheet(&mut self) -> Result<(), AllocError> {
        let sheet = some_sheet(self.random);
        self.add(sheet)
    }

    // Now and then a stray line.
    fn add_stray(&mut self) -> Result<(), AllocError> {
        if self.random.one_in(25) {
            self.lines.push(stray_line(self.random))?;
        }
        Ok(())
    }

    fn add_opening(&mut self, size: Size) -> Result<(), AllocError> {
        if self.random.one_in(15) {
            let odd = plan_size(
                self.random.of(&[0, 1, 33]),
                self.random.of(&[0, 65]),
                self.random.of(&[0, 1, 5]),
            );
            self.add(Command::Open(odd))?;
        }
        if self.random.one_in(40) {
            self.add(Command::Seal)?;
        }
        self.add(Command::Open(size))
    }

    // Fewer than so many pipes.
    fn add_pipes(&mut self, size: Size, most: u32) -> Result<(), AllocError> {
        for _ in 0..self.random.below(most) {
            self.add_stray()?;
            let pipe = if self.random.one_in(15) {
                odd_pipe(self.random, size)
            } else {
                some_pipe(self.random, size)
            };
            self.add(Command::LayPipe(pipe))?;
        }
        Ok(())
    }

    fn add_rows(&mut self, channels: u32) -> Result<(), AllocError> {
        let mut rows = 0u32;
        let count = if self.random.one_in(30) {
            0
        } else {
            self.random.below(5).saturating_add(2)
        };
        for _ in 0..count {
            self.add_stray()?;
            let row = if self.random.one_in(15) {
                odd_row(self.random, rows, channels)
            } else {
                let statement = some_statement(self.random, rows, channels);
                rows = rows.saturating_add(1);
                Some(statement)
            };
            self.add(Command::WriteRow(row))?;
        }
        Ok(())
    }

    // An exact reading for each cell.
    fn add_exact_readings(&mut self, size: Size) -> Result<(), AllocError> {
        for channel in 0..size.channels {
            for step in 0..size.steps {
                for place in 0..size.places {
                    let reading = self.random.of(&LEVELS);
                    self.add(Command::Enter(exact_entry(channel, place, step, reading)))?;
                }
            }
        }
        Ok(())
    }

    fn add_readings(&mut self, size: Size) -> Result<(), AllocError> {
        for _ in 0..self.random.below(8) {
            self.add_stray()?;
            let entry = some_entry(self.random, size);
            self.add(Command::Enter(entry))?;
        }
        Ok(())
    }

    fn add_ending(&mut self) -> Result<(), AllocError> {
        self.add(Command::Seal)?;
        self.add_sheet()?;
        self.add_span_sheet()
    }

    // A sheet that takes any readings.
    fn add_span_sheet(&mut self) -> Result<(), AllocError> {
        self.add(Command::DrawSheet {
            kind: SheetKind::MarginSpan,
            measure: MeasureName::Hops,
        })
    }

    // A job on a plan of this size, with fewer than so many pipes.
    fn sized(&mut self, size: Size, pipes: u32) -> Result<(), AllocError> {
        self.add_stray()?;
        self.add_opening(size)?;
        self.add_pipes(size, pipes)?;
        self.add_rows(size.channels)?;
        self.add(Command::Seal)?;
        if self.random.one_in(20) {
            self.add(Command::Seal)?;
        }
        for _ in 0..self.random.below(2).saturating_add(1) {
            self.add_readings(size)?;
            self.add_sheet()?;
        }
        if self.random.one_in(2) {
            self.add_exact_readings(size)?;
            self.add_sheet()?;
            self.add_sheet()?;
        }
        self.add_stray()
    }

    // A job like any other: most are small.
    fn ordinary(&mut self) -> Result<(), AllocError> {
        if self.random.one_in(40) {
            let places = self.random.below(6).saturating_add(5);
            let steps = self.random.below(6).saturating_add(4);
            let channels = self.random.below(4).saturating_add(1);
            return self.sized(plan_size(places, steps, channels), 30);
        }
        if self.random.one_in(200) {
            return self.sized(plan_size(16, 2, 1), 60);
        }
        let places = self.random.below(4).saturating_add(1);
        let steps = self.random.below(3).saturating_add(1);
        let channels = self.random.below(2).saturating_add(1);
        self.sized(plan_size(places, steps, channels), 8)
    }

    // As many pipes as there may be, and some that are refused, with a row over them.
    fn many_pipes(&mut self) -> Result<(), AllocError> {
        let size = plan_size(6, 2, 1);
        self.add_opening(size)?;
        for _ in 0..257u32 {
            let pipe = some_pipe(self.random, size);
            self.add(Command::LayPipe(pipe))?;
        }
        let pipe = odd_pipe(self.random, size);
        self.add(Command::LayPipe(pipe))?;
        self.add_row(Statement::AtLeast {
            channel: 0,
            limit: 3,
        })?;
        for _ in 0..2u32 {
            let statement = some_statement(self.random, 1, 1);
            self.add_row(statement)?;
        }
        let from = self.random.below(4);
        self.add_row(reach(from, None))?;
        self.add_ending()?;
        self.add_readings(size)?;
        self.add_sheet()
    }

    // As many rows as there may be, and some that are refused.
    fn many_rows(&mut self) -> Result<(), AllocError> {
        self.add_opening(plan_size(2, 2, 1))?;
        self.add_row(Statement::Yes)?;
        for _ in 0..32u32 {
            let statement = good_statement(self.random);
            self.add_row(statement)?;
        }
        for _ in 0..3u32 {
            let row = odd_row(self.random, 32, 1);
            self.add(Command::WriteRow(row))?;
        }
        self.add_ending()
    }

    // A plan of a size at some limit, with few rows.
    fn at_a_limit(&mut self, places: u32, steps: u32, rows: u32) -> Result<(), AllocError> {
        self.add_opening(plan_size(places, steps, 1))?;
        for row in 0..rows {
            let statement = some_statement(self.random, row, 1);
            self.add_row(statement)?;
        }
        self.add_ending()
    }

    // More bytes than a job may have.
    fn too_long(&mut self) -> Result<(), AllocError> {
        for _ in 0..4_100u32 {
            self.add(Command::Seal)?;
        }
        Ok(())
    }

    // Entries with their ends just at the limits of readings, and just beyond.
    fn ends_of_entries(&mut self) -> Result<(), AllocError> {
        self.add_opening(plan_size(2, 2, 1))?;
        self.add_row(Statement::AtLeast {
            channel: 0,
            limit: 0,
        })?;
        self.add(Command::Seal)?;
        for (low, high) in [
            (0, 1_000_000),
            (0, 1_000_001),
            (-1_000_000, 0),
            (-1_000_001, 0),
        ] {
            let entry = Entry {
                channel: 0,
                place: self.random.below(2),
                step: self.random.below(2),
                low,
                high,
            };
            self.add(Command::Enter(entry))?;
        }
        self.add_sheet()?;
        self.add_span_sheet()
    }
}

// The job of a number: most are ordinary, and some are at a limit.
pub(crate) fn make_lines(
    heap: Global,
    random: &mut Random,
    number: u32,
) -> Result<Vec<Line>, AllocError> {
    let mut job = Making {
        random,
        lines: Vec::new(heap),
    };
    match number % 400 {
        0 => job.ends_of_entries()?,
        7 => job.many_pipes()?,
        57 => job.too_long()?,
        77 => job.many_rows()?,
        107 => job.at_a_limit(32, 64, 1)?,
        207 => job.at_a_limit(16, 64, 3)?,
        257 => job.at_a_limit(16, 64, 2)?,
        307 => job.at_a_limit(17, 2, 1)?,
        357 => job.at_a_limit(17, 60, 3)?,
        _ => job.ordinary()?,
    }
    Ok(job.lines)
}
