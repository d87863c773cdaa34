// What one line does at each stage of a job.
ghost use Rattle.std.specs.Prelude.{◌≡◌, IfOk, string_bytes, OnOk};
ghost use Rattle.plan.specs.Drafts.{plan_of};
ghost use Rattle.survey.specs.Surveys.{survey_of};
ghost use Rattle.job.specs.Jobs.{blank, draft as at_draft, survey as at_survey, obeyed, answered};
ghost use Rattle.job.specs.Reading.{Done, opened_stage, sealed_stage};

use crate::sheets::report_drawing;
use command::Command;
use plan::{Draft, Size};
use refusal::Refusal;
use report::Printout;
use std::alloc::{AllocError, Global};
use store::{Readings, Store, Table};
use survey::Survey;

// The most cells that a job's table has.
const MOST_CELLS: usize = 1_024;

// Opens a draft, if its size is allowed.
fn open_draft(heap: Global, size: Size, out: &mut Printout) -> Result<Option<Draft>, AllocError>
    ensures { IfOk result (λ o. Done (string_bytes out.old.text) (string_bytes out.new.text) (opened_stage o) (obeyed out.old.line blank (Command.Open size))) }
{
    if let Err(refusal) = Draft::check_size(size) {
        out.refuse(refusal)?;
        return Ok(None);
    }
    Ok(Some(Draft::open(heap, size)?))
}

// A line before a draft is open.
pub(crate) fn blank_turn(
    heap: Global,
    answer: Result<Command, Refusal>,
    out: &mut Printout,
) -> Result<Option<Draft>, AllocError>
    ensures { IfOk result (λ o. Done (string_bytes out.old.text) (string_bytes out.new.text) (opened_stage o) (answered out.old.line blank answer)) }
{
    match answer {
        Ok(Command::Open(size)) => open_draft(heap, size, out),
        Ok(_) => Ok(None),
        Err(refusal) => {
            out.refuse(refusal)?;
            Ok(None)
        }
    }
}

// A table to seal the draft with, if it has the plan's cells.
fn table_for(heap: Global, draft: &Draft, out: &mut Printout) -> Result<Option<Table>, AllocError>
    ensures { IfOk result (λ o. Done (string_bytes out.old.text) (string_bytes out.new.text) (sealed_stage draft.now o) (obeyed out.old.line (at_draft (plan_of draft.now)) Command.Seal)) }
{
    let table = Table::new(heap, draft.cells().min(MOST_CELLS))?;
    if let Err(refusal) = Survey::check(draft, &table) {
        out.refuse(refusal)?;
        return Ok(None);
    }
    Ok(Some(table))
}

// A line while the draft is open.
pub(crate) fn draft_turn(
    heap: Global,
    answer: Result<Command, Refusal>,
    draft: &mut Draft,
    out: &mut Printout,
) -> Result<Option<Table>, AllocError>
    ensures { IfOk result (λ o. Done (string_bytes out.old.text) (string_bytes out.new.text) (sealed_stage draft.new o) (answered out.old.line (at_draft (plan_of draft.old)) answer)) }
{
    match answer {
        Ok(Command::LayPipe(pipe)) => {
            out.tell(draft.add_pipe(pipe))?;
            Ok(None)
        }
        Ok(Command::WriteRow(row)) => {
            out.tell(draft.add_row(row))?;
            Ok(None)
        }
        Ok(Command::Seal) => table_for(heap, draft, out),
        Ok(_) => Ok(None),
        Err(refusal) => {
            out.refuse(refusal)?;
            Ok(None)
        }
    }
}

// A line once the survey is sealed.
pub(crate) fn survey_turn<S: Store>(
    answer: Result<Command, Refusal>,
    survey: &mut Survey<S>,
    out: &mut Printout,
) -> Result<(), AllocError>
    ensures { OnOk result (Done (string_bytes out.old.text) (string_bytes out.new.text) (at_survey (survey_of S.Store.most S.Readings.ranges survey.new)) (answered out.old.line (at_survey (survey_of S.Store.most S.Readings.ranges survey.old)) answer)) }
{
    match answer {
        Ok(Command::Enter(entry)) => out.tell(survey.enter(entry)),
        Ok(Command::DrawSheet { kind, measure }) => report_drawing(kind, measure, survey, out),
        Ok(_) => Ok(()),
        Err(refusal) => out.refuse(refusal),
    }
}
