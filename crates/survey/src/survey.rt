// The sealed survey: entering readings, and drawing sheets.
ghost use Rattle.std.specs.Prelude.{◌≡◌, length};
ghost use Rattle.refusal.specs.Checks.{answer, leaves};
ghost use Rattle.store.specs.Stored.{at, stored};
ghost use Rattle.plan.specs.Drafts.{plan_of};
ghost use Rattle.monitor.specs.Verdicts.{verdict, OneSheet};
ghost use Rattle.monitor.specs.Boards.{sheet_refusal, Leaves};

use network::Measure;
use plan::Draft;
use reading::{Entry, Range};
use refusal::Refusal;
use store::Store;
use verdict::Kind;

// A plan that no longer changes, with what is known of its cells.
#[derive(Drop)]
pub struct Survey<S> {
    draft: Draft,
    store: S,
    number: u32,
}

impl<S: Store> Survey<S> {
    ghost use Rattle.survey.specs.Surveys.{survey_of, surveyed, sealing_refusal, found, entry_refusal, with_entry};

    // Whether the store has the plan's cells. Moves neither.
    pub fn check(draft: &Draft, store: &S) -> Result<(), Refusal>
        ensures { result ≡ answer (sealing_refusal (plan_of draft.now) (length (S.Readings.ranges store.now))) }
    {
        if store.cells() != draft.cells() {
            return Err(Refusal::OtherCells);
        }
        Ok(())
    }

    // The draft and the store become a survey. Cells that the store lacks read as widest.
    pub fn seal(draft: Draft, store: S, number: u32) -> Survey<S>
        ensures { survey_of S.Store.most S.Readings.ranges result ≡ surveyed (plan_of draft) number (stored (S.Store.most store) (S.Readings.ranges store)) }
    {
        Survey {
            draft,
            store,
            number,
        }
    }

    pub fn number(&self) -> u32
        ensures { result ≡ (survey_of S.Store.most S.Readings.ranges self.now).number }
    {
        self.number
    }

    // The plan, to be read.
    pub fn plan(&self) -> &Draft
        ensures { plan_of result.now ≡ (survey_of S.Store.most S.Readings.ranges self.now).plan }
    {
        &self.draft
    }

    // The cell of a channel, a place and a step, if there is one.
    fn cell_of(&self, entry: Entry) -> Option<usize>
        ensures { result ≡ found (survey_of S.Store.most S.Readings.ranges self.now) entry }
    {
        let draft = &self.draft;
        if entry.channel >= draft.channels()
            || entry.place >= draft.places()
            || entry.step >= draft.steps()
        {
            return None;
        }
        let cell = draft.index(entry.channel, entry.step, entry.place);
        (cell < self.store.cells()).then_some(cell)
    }

    // Enters a reading.
    pub fn enter(&mut self, entry: Entry) -> Result<(), Refusal>
        ensures answers { result ≡ answer (entry_refusal (survey_of S.Store.most S.Readings.ranges self.old) entry) }
        ensures after { survey_of S.Store.most S.Readings.ranges self.new ≡ leaves (entry_refusal (survey_of S.Store.most S.Readings.ranges self.old) entry) (survey_of S.Store.most S.Readings.ranges self.old) (with_entry (survey_of S.Store.most S.Readings.ranges self.old) entry) }
    {
        let cell = self.cell_of(entry).ok_or(Refusal::NoSuchCell)?;
        let range = Range::new(entry.low, entry.high).ok_or(Refusal::NoRange)?;
        self.store.enter(cell, range)
    }

    // Draws a sheet of a kind with a measure.
    pub fn sheet<K: Kind, M: Measure>(&self, board: &mut [K], work: &mut [K]) -> Result<(), Refusal>
        ensures answers { result ≡ answer (sheet_refusal (survey_of S.Store.most S.Readings.ranges self.now).plan (at (survey_of S.Store.most S.Readings.ranges self.now).store.ranges) K.Kind.ops.ranged (length board.old) (length work.old)) }
        ensures leaves { Leaves (sheet_refusal (survey_of S.Store.most S.Readings.ranges self.now).plan (at (survey_of S.Store.most S.Readings.ranges self.now).store.ranges) K.Kind.ops.ranged (length board.old) (length work.old)) (survey_of S.Store.most S.Readings.ranges self.now).plan (verdict K.Kind.ops M.Measure.extend (survey_of S.Store.most S.Readings.ranges self.now).plan (at (survey_of S.Store.most S.Readings.ranges self.now).store.ranges)) board.old board.new work.old work.new }
        ensures meaning { OneSheet K.Kind.ops M.Measure.extend (survey_of S.Store.most S.Readings.ranges self.now).plan (at (survey_of S.Store.most S.Readings.ranges self.now).store.ranges) }
    {
        monitor::draw::<K, M, S>(&self.draft, &self.store, board, work)
    }
}
