// Drawing a sheet, for every verdict kind, measure and source of ranges.
ghost use Rattle.std.specs.Prelude.{◌≡◌, ◌*◌, ◌≤◌, length};
ghost use Rattle.refusal.specs.Checks.{answer};
ghost use Rattle.store.specs.Stored.{at};
ghost use Rattle.plan.specs.Plans.{index};
ghost use Rattle.plan.specs.Drafts.{plan_of};
ghost use Rattle.monitor.specs.Verdicts.{verdict, OneSheet};
ghost use Rattle.monitor.specs.Boards.{inexact, sheet_refusal, Leaves, Drawn};

use crate::row::RowAtStep;
use network::Measure;
use plan::Draft;
use refusal::Refusal;
use store::Readings;
use verdict::Kind;

// The smallest cell that is not exact.
fn first_inexact<S: Readings>(readings: &S, cells: usize) -> Option<usize>
    ensures { result ≡ inexact (at (S.Readings.ranges readings.now)) cells }
{
    (0..cells).find(|cell| !readings.range(*cell).is_exact())
}

// Whether a sheet may be drawn, on a board and in work of these lengths.
fn check_sheet<K: Kind, S: Readings>(
    draft: &Draft,
    readings: &S,
    board: usize,
    work: usize,
) -> Result<(), Refusal>
    ensures { result ≡ answer (sheet_refusal (plan_of draft.now) (at (S.Readings.ranges readings.now)) K.Kind.ops.ranged board work) }
{
    let rows = draft.rows().len();
    if rows == 0 {
        return Err(Refusal::NoRow);
    }
    let places = draft.places() as usize;
    if board < rows * draft.steps() as usize * places {
        return Err(Refusal::ShortBoard);
    }
    // Reach takes 129 verdicts for each place; the rest is room to spare.
    if work < 256 * places {
        return Err(Refusal::ShortWork);
    }
    if K::takes_ranges() {
        return Ok(());
    }
    match first_inexact(readings, draft.cells()) {
        Some(cell) => Err(Refusal::NotExact { cell }),
        None => Ok(()),
    }
}

// The verdicts of all rows, each over the rows before it.
fn draw_rows<K: Kind, M: Measure, S: Readings>(
    draft: &Draft,
    readings: &S,
    board: &mut [K],
    work: &mut [K],
)
    requires room { index (plan_of draft.now) (length (plan_of draft.now).rows) 0 0 ≤ length board.old }
    requires work { 256 * draft.now.places ≤ length work.old }
    ensures { Drawn (plan_of draft.now) (verdict K.Kind.ops M.Measure.extend (plan_of draft.now) (at (S.Readings.ranges readings.now))) board.old board.new }
{
    for (row, statement) in draft.rows().iter().enumerate() {
        let row = row as u32;
        let statement = *statement;
        for step in 0..draft.steps() {
            let before = RowAtStep {
                draft,
                row,
                statement,
                step,
                board,
            };
            before.prepare::<M>(work);
            for place in 0..draft.places() {
                let here = RowAtStep {
                    draft,
                    row,
                    statement,
                    step,
                    board,
                };
                board[draft.index(row, step, place)] = here.verdict::<M, S>(readings, place, work);
            }
        }
    }
}

// Draws a sheet: the verdict of each row, step and place at its place on the board.
pub fn draw<K: Kind, M: Measure, S: Readings>(
    draft: &Draft,
    readings: &S,
    board: &mut [K],
    work: &mut [K],
) -> Result<(), Refusal>
    ensures answers { result ≡ answer (sheet_refusal (plan_of draft.now) (at (S.Readings.ranges readings.now)) K.Kind.ops.ranged (length board.old) (length work.old)) }
    ensures leaves { Leaves (sheet_refusal (plan_of draft.now) (at (S.Readings.ranges readings.now)) K.Kind.ops.ranged (length board.old) (length work.old)) (plan_of draft.now) (verdict K.Kind.ops M.Measure.extend (plan_of draft.now) (at (S.Readings.ranges readings.now))) board.old board.new work.old work.new }
    ensures meaning { OneSheet K.Kind.ops M.Measure.extend (plan_of draft.now) (at (S.Readings.ranges readings.now)) }
{
    check_sheet::<K, S>(draft, readings, board.len(), work.len())?;
    draw_rows::<K, M, S>(draft, readings, board, work);
    Ok(())
}
