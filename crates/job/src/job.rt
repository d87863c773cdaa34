// A job under way: its lines are read one by one, in three loops, each of which owns what the job then holds.
ghost use Rattle.std.specs.Prelude.{◌≡◌, [], IfOk, string_bytes, MatchOption, OnOk};
ghost use Rattle.plan.specs.Drafts.{plan_of};
ghost use Rattle.store.specs.Tables.{table_of};
ghost use Rattle.survey.specs.Surveys.{survey_of};
ghost use Rattle.job.specs.Jobs.{blank as at_blank, draft as at_draft, survey as at_survey, job_text};
ghost use Rattle.job.specs.Reading.{Told};

use crate::turns::{blank_turn, draft_turn, survey_turn};
use command::{Command, Part, read_command};
use line::Lines;
use plan::Draft;
use refusal::Refusal;
use report::Printout;
use std::alloc::{AllocError, Global};
use store::{Store, Table};
use survey::Survey;

// The most bytes of a job that is run.
pub const MOST_BYTES: usize = 8_192;

// The number of a job's survey.
const SURVEY_NUMBER: u32 = 1;

// The lines that are left, the part of the job that they are read in, and what is printed so far.
#[derive(Drop)]
struct Job<'a> {
    heap: Global,
    lines: Lines<'a>,
    part: Part,
    out: Printout,
}

impl<'a> Job<'a> {
    ghost use Rattle.job.specs.Way.{in_all};

    fn new(heap: Global, text: &'a [u8]) -> Job<'a>
        ensures begins { (result.lines.rest.now ≡ text.now) × ((result.lines.number ≡ 0) × (result.part ≡ Part.Blank)) }
        ensures silent { (string_bytes result.out.text ≡ []) × (result.out.line ≡ 0) }
    {
        Job {
            heap,
            lines: Lines::new(text),
            part: Part::Blank,
            out: Printout::new(heap),
        }
    }

    // What the next line asks for, or why it is refused; nothing after the last line. What is then printed is about that line.
    fn next_command(&mut self) -> Result<Option<Result<Command, Refusal>>, AllocError>
        ensures told { IfOk result (λ o. Told self.old.part self.old.lines.rest.now self.new.lines.rest.now self.old.lines.number self.new.lines.number o) }
        ensures line { IfOk result (λ o. MatchOption o (self.new.out.line ≡ self.old.out.line) (λ _. self.new.out.line ≡ self.new.lines.number)) }
        ensures silent { string_bytes self.new.out.text ≡ string_bytes self.old.out.text }
        ensures part { self.new.part ≡ self.old.part }
    {
        let Some(line) = self.lines.next_line() else {
            return Ok(None);
        };
        self.out.line = self.lines.number();
        let answer = read_command(self.heap, self.part, line)?;
        Ok(Some(answer))
    }

    // Lines up to the one that opens a draft.
    fn await_draft(&mut self) -> Result<Option<Draft>, AllocError>
        requires part { self.old.part ≡ Part.Blank }
        ensures part { IfOk result (λ o. MatchOption o (self.new.part ≡ Part.Blank) (λ _. self.new.part ≡ Part.Drafting)) }
        ensures prints { IfOk result (λ o. MatchOption o (string_bytes self.new.out.text ≡ in_all self.old at_blank) (λ d. in_all self.new (at_draft (plan_of d)) ≡ in_all self.old at_blank)) }
    {
        while let Some(answer) = self.next_command()? {
            if let Some(draft) = blank_turn(self.heap, answer, &mut self.out)? {
                self.part = Part::Drafting;
                return Ok(Some(draft));
            }
        }
        Ok(None)
    }

    // Lines up to the one that seals the draft.
    fn await_survey(&mut self, mut draft: Draft) -> Result<Option<Survey<Table>>, AllocError>
        requires part { self.old.part ≡ Part.Drafting }
        ensures part { IfOk result (λ o. MatchOption o (self.new.part ≡ Part.Drafting) (λ _. self.new.part ≡ Part.Sealed)) }
        ensures prints { IfOk result (λ o. MatchOption o (string_bytes self.new.out.text ≡ in_all self.old (at_draft (plan_of draft))) (λ s. in_all self.new (at_survey (survey_of (λ t. (table_of t).capacity) (λ t. (table_of t).ranges) s)) ≡ in_all self.old (at_draft (plan_of draft)))) }
    {
        while let Some(answer) = self.next_command()? {
            if let Some(table) = draft_turn(self.heap, answer, &mut draft, &mut self.out)? {
                self.part = Part::Sealed;
                return Ok(Some(Survey::seal(draft, table, SURVEY_NUMBER)));
            }
        }
        Ok(None)
    }

    // The lines on a sealed survey.
    fn use_survey<S: Store + Drop>(&mut self, mut survey: Survey<S>) -> Result<(), AllocError>
        requires part { self.old.part ≡ Part.Sealed }
        ensures { OnOk result (string_bytes self.new.out.text ≡ in_all self.old (at_survey (survey_of S.Store.most S.Readings.ranges survey))) }
    {
        while let Some(answer) = self.next_command()? {
            survey_turn(answer, &mut survey, &mut self.out)?;
        }
        Ok(())
    }
}

// The text that a job prints.
pub fn run_job(heap: Global, job: &[u8]) -> Result<String, AllocError>
    ensures { IfOk result (λ s. string_bytes s ≡ job_text job.now) }
{
    let mut run = Job::new(heap, job);
    if job.len() > MOST_BYTES {
        run.out.refuse(Refusal::Misspelt)?;
        return Ok(run.out.into_text());
    }
    if let Some(draft) = run.await_draft()? {
        if let Some(survey) = run.await_survey(draft)? {
            run.use_survey(survey)?;
        }
    }
    Ok(run.out.into_text())
}
