// The draft of a plan: what is true of every draft, and writing pipes and rows into it.
ghost use Rattle.std.specs.Prelude.{◌≡◌, ◌*◌, ◌≤◌, true, length, IfOk, Some, vec_len, vec_capacity};
ghost use Rattle.refusal.specs.Checks.{answer, leaves};
ghost use Rattle.network.specs.Routes.{all_join};
ghost use Rattle.plan.specs.Rows.{Ordered, Intervals};
ghost use Rattle.plan.specs.Plans.{size_refusal, within_most, opened, pipe_refusal, with_pipe, row_refusal, with_row, cells, index};

use crate::size::Size;
use crate::statement::{Row, Statement};
use network::Pipe;
use refusal::Refusal;
use std::alloc::{AllocError, Global};

const MOST_PLACES: u32 = 32;

const MOST_STEPS: u32 = 64;

const MOST_CHANNELS: u32 = 4;

const MOST_PIPES: usize = 255;

const MOST_ROWS: usize = 32;

// A plan that is being written. All its memory is asked for when it is opened.
#[derive(Drop)]
pub struct Draft {
    places: u32,
    steps: u32,
    channels: u32,
    pipes: Vec<Pipe>,
    rows: Vec<Statement>,
    ghost some_places: { 1 ≤ places },
    ghost few_places: { places ≤ 32 },
    ghost some_steps: { 1 ≤ steps },
    ghost few_steps: { steps ≤ 64 },
    ghost some_channels: { 1 ≤ channels },
    ghost few_channels: { channels ≤ 4 },
    ghost few_pipes: { vec_len pipes ≤ 255 },
    ghost pipe_room: { 255 ≤ vec_capacity pipes },
    ghost few_rows: { vec_len rows ≤ 32 },
    ghost row_room: { 32 ≤ vec_capacity rows },
    ghost joined: { all_join places pipes.items ≡ true },
    ghost ordered: { Ordered rows.items },
    ghost intervals: { Intervals rows.items },
}

// Whether a number lies from 1 to the most that there may be.
fn counts(number: u32, most: u32) -> bool
    ensures { result ≡ within_most number most }
{
    (1..=most).contains(&number)
}

impl Draft {
    ghost use Rattle.plan.specs.Drafts.{plan_of};

    // Whether a draft of this size may be opened.
    pub fn check_size(size: Size) -> Result<(), Refusal>
        ensures { result ≡ answer (size_refusal size) }
    {
        if counts(size.places, MOST_PLACES)
            && counts(size.steps, MOST_STEPS)
            && counts(size.channels, MOST_CHANNELS)
        {
            return Ok(());
        }
        Err(Refusal::OutsideLimits)
    }

    // An empty draft. A number outside its limits is read as the nearer limit.
    pub fn open(heap: Global, size: Size) -> Result<Draft, AllocError>
        ensures { IfOk result (λ d. plan_of d ≡ opened size) }
    {
        Ok(Draft {
            places: size.places.clamp(1, MOST_PLACES),
            steps: size.steps.clamp(1, MOST_STEPS),
            channels: size.channels.clamp(1, MOST_CHANNELS),
            pipes: Vec::with_capacity(heap, MOST_PIPES)?,
            rows: Vec::with_capacity(heap, MOST_ROWS)?,
        })
    }

    // Whether a pipe may be laid.
    fn check_pipe(&self, pipe: Pipe) -> Result<(), Refusal>
        ensures { result ≡ answer (pipe_refusal (plan_of self.now) pipe) }
    {
        if pipe.from >= self.places || pipe.to >= self.places {
            return Err(Refusal::NoSuchPlace);
        }
        if pipe.first > pipe.last || pipe.last >= self.steps {
            return Err(Refusal::NoSuchStep);
        }
        if pipe.length > 1_000 || pipe.drop > 1_000 {
            return Err(Refusal::TooLarge);
        }
        if self.pipes.len() >= MOST_PIPES {
            return Err(Refusal::PipesFull);
        }
        Ok(())
    }

    // Lays a pipe.
    pub fn add_pipe(&mut self, pipe: Pipe) -> Result<(), Refusal>
        ensures answers { result ≡ answer (pipe_refusal (plan_of self.old) pipe) }
        ensures after { plan_of self.new ≡ leaves (pipe_refusal (plan_of self.old) pipe) (plan_of self.old) (with_pipe (plan_of self.old) pipe) }
    {
        self.check_pipe(pipe)?;
        self.pipes.push_reserved(pipe);
        Ok(())
    }

    // Whether a statement may be written.
    fn check_statement(&self, statement: Statement) -> Result<(), Refusal>
        ensures { result ≡ answer (row_refusal (plan_of self.now) (Some statement)) }
    {
        let count = self.rows.len();
        if !statement.refers_below(count as u32) {
            return Err(Refusal::NoSuchRow);
        }
        if !statement.reads_channel(self.channels) {
            return Err(Refusal::NoSuchChannel);
        }
        if !statement.has_interval() {
            return Err(Refusal::NoInterval);
        }
        if count >= MOST_ROWS {
            return Err(Refusal::RowsFull);
        }
        Ok(())
    }

    // Writes a row, which takes the next number.
    pub fn add_row(&mut self, row: Row) -> Result<(), Refusal>
        ensures answers { result ≡ answer (row_refusal (plan_of self.old) row) }
        ensures after { plan_of self.new ≡ leaves (row_refusal (plan_of self.old) row) (plan_of self.old) (with_row (plan_of self.old) row) }
    {
        let statement = row.ok_or(Refusal::NoSuchCode)?;
        self.check_statement(statement)?;
        self.rows.push_reserved(statement);
        Ok(())
    }

    pub fn places(&self) -> u32
        ensures { result ≡ (plan_of self.now).places }
    {
        self.places
    }

    pub fn steps(&self) -> u32
        ensures { result ≡ (plan_of self.now).steps }
    {
        self.steps
    }

    pub fn channels(&self) -> u32
        ensures { result ≡ (plan_of self.now).channels }
    {
        self.channels
    }

    // How many cells the plan has: one for each channel, step and place.
    pub fn cells(&self) -> usize
        ensures { result ≡ cells (plan_of self.now) }
    {
        self.channels as usize * self.steps as usize * self.places as usize
    }

    // The index of a cell, by its channel, or of a verdict on a board, by its row.
    pub fn index(&self, number: u32, step: u32, place: u32) -> usize
        ensures { result ≡ index (plan_of self.now) number step place }
    {
        let line = number as usize * self.steps as usize + step as usize;
        line * self.places as usize + place as usize
    }

    // The pipes, in the order in which they were laid.
    pub fn pipes(&self) -> &[Pipe]
        ensures { result.now ≡ (plan_of self.now).pipes }
    {
        self.pipes.as_slice()
    }

    // The rows, in the order of their numbers.
    pub fn rows(&self) -> &[Statement]
        ensures { result.now ≡ (plan_of self.now).rows }
    {
        self.rows.as_slice()
    }
}
