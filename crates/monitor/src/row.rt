// A row at a step: its verdicts, from those of the rows before it.
ghost use Rattle.std.specs.Prelude.{◌≡◌, ℕ, ◌+◌, ◌*◌, ◌<◌, ◌≤◌, length};
ghost use Rattle.store.specs.Stored.{at};
ghost use Rattle.plan.specs.Plans.{index};
ghost use Rattle.plan.specs.Drafts.{plan_of};
ghost use Rattle.monitor.specs.Meaning.{row_at};
ghost use Rattle.monitor.specs.Verdicts.{column, windowed, value};
ghost use Rattle.monitor.specs.Boards.{Prepared};

use network::Measure;
use plan::{Draft, Statement, Window};
use space::{fill_levels, level_verdict};
use store::Readings;
use verdict::Kind;

// A row of a draft at a step, and a board on which the rows before it stand.
#[derive(Drop)]
pub(crate) struct RowAtStep<'a, K> {
    pub(crate) draft: &'a Draft,
    pub(crate) row: u32,
    pub(crate) statement: Statement,
    pub(crate) step: u32,
    pub(crate) board: &'a [K],
    ghost written: { row < length (plan_of draft.now).rows },
    ghost says: { statement ≡ row_at (plan_of draft.now) row },
    ghost recorded: { step < draft.now.steps },
    ghost before: { index (plan_of draft.now) row 0 0 ≤ length board.now },
}

impl<'a, K: Kind> RowAtStep<'a, K> {
    ghost use Rattle.monitor.specs.AtStep.{on_board};

    // The verdict of a row before this one, at any step.
    fn standing(&self, row: u32, step: u32, place: u32) -> K
        requires before { row < self.now.row }
        requires step { step < self.now.draft.now.steps }
        requires place { place < self.now.draft.now.places }
        ensures { result ≡ on_board self.now K.Kind.ops.bottom row step place }
    {
        self.board[self.draft.index(row, step, place)]
    }

    // The verdicts of a row before this one, at this step and all places.
    fn column(&self, row: u32) -> &'a [K]
        requires before { row < self.now.row }
        ensures { result.now ≡ column self.now.draft.now.places (on_board self.now K.Kind.ops.bottom row self.now.step) }
    {
        let start = self.draft.index(row, self.step, 0);
        &self.board[start..start + self.draft.places() as usize]
    }

    // The verdict of a window: one run along its steps, of which the k-th lies at `step_of(k)`.
    fn windowed<F: Fn(u32) -> u32>(&self, window: Window, count: u32, place: u32, step_of: F) -> K
        requires before { (window.hold < self.now.row) × (window.goal < self.now.row) }
        requires place { place < self.now.draft.now.places }
        requires callable { (k : ℕ) → k < count → F.pre step_of k }
        requires recorded { (k t : ℕ) → k < count → F.post step_of k t → t < self.now.draft.now.steps }
        ensures { (t : ℕ → ℕ) → ((k u : ℕ) → k < count → F.post step_of k u → u ≡ t k) → result ≡ windowed K.Kind.ops (λ k. on_board self.now K.Kind.ops.bottom window.hold (t k) place) (λ k. on_board self.now K.Kind.ops.bottom window.goal (t k) place) window.from count }
    {
        let mut held = K::top();
        let mut verdict = K::bottom();
        for k in 0..count {
            let step = step_of(k);
            held = held.meet(self.standing(window.hold, step, place));
            // Read at steps that do not count too: to leave them before takes twice as long where `from` is early.
            let reached = self.standing(window.goal, step, place);
            verdict = if window.from <= k {
                verdict.join(reached.meet(held))
            } else {
                verdict
            };
        }
        verdict
    }

    // Puts into the work what the verdicts are taken from.
    pub(crate) fn prepare<M: Measure>(&self, work: &mut [K])
        requires work { 256 * self.now.draft.now.places ≤ length work.old }
        ensures { Prepared K.Kind.ops M.Measure.extend (plan_of self.now.draft.now) (on_board self.now K.Kind.ops.bottom) self.now.step work.new self.now.statement }
    {
        if let Statement::Reach {
            through,
            goal,
            distances,
        } = self.statement
        {
            let pipes = self.draft.pipes();
            fill_levels::<K, M>(
                work,
                self.column(through),
                self.column(goal),
                pipes,
                self.step,
                distances,
            );
        }
    }

    // The verdict at a place.
    pub(crate) fn verdict<M: Measure, S: Readings>(&self, readings: &S, place: u32, work: &[K]) -> K
        requires place { place < self.now.draft.now.places }
        requires work { 256 * self.now.draft.now.places ≤ length work.now }
        requires prepared { Prepared K.Kind.ops M.Measure.extend (plan_of self.now.draft.now) (on_board self.now K.Kind.ops.bottom) self.now.step work.now self.now.statement }
        ensures { result ≡ value K.Kind.ops M.Measure.extend (plan_of self.now.draft.now) (at (S.Readings.ranges readings.now)) (on_board self.now K.Kind.ops.bottom) self.now.statement self.now.step place }
    {
        let draft = self.draft;
        let step = self.step;
        match self.statement {
            Statement::AtLeast { channel, limit } => {
                K::judge(readings.range(draft.index(channel, step, place)), limit)
            }
            Statement::Not { row } => self.standing(row, step, place).not(),
            Statement::And { left, right } => {
                self.standing(left, step, place)
                    .meet(self.standing(right, step, place))
            }
            Statement::Or { left, right } => {
                self.standing(left, step, place)
                    .join(self.standing(right, step, place))
            }
            Statement::Until(window) => {
                let count = window.upto.saturating_add(1).min(draft.steps() - step);
                self.windowed(window, count, place, |wait| step + wait)
            }
            Statement::Since(window) => {
                let count = window.upto.saturating_add(1).min(step + 1);
                self.windowed(window, count, place, |ago| step - ago)
            }
            Statement::Reach { distances, .. } => {
                level_verdict(work, draft.places() as usize, distances, place as usize)
            }
            Statement::Yes => K::top(),
        }
    }
}
