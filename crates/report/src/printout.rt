// What a job prints: a refusal's line, and a sheet's block of lines.
ghost use Rattle.std.specs.Prelude.{◌≡◌, ◌<◌, ◌≤◌, ◌++◌, [], length, IfOk, vec_len, string_bytes};
ghost use Rattle.std.specs.Result.{result_err};
ghost use Rattle.plan.specs.Drafts.{plan_of};
ghost use Rattle.monitor.specs.Boards.{shown, area};
ghost use Rattle.survey.specs.Surveys.{survey_of};
ghost use Rattle.report.specs.Texts.{refusal_text, unless_refused, sheet_text, sheet_report};

use crate::block::Block;
use network::Measure;
use plan::Draft;
use refusal::Refusal;
use std::alloc::{AllocError, Global};
use store::Store;
use survey::Survey;
use verdict::{Kind, Printed};

// The board and the work that a sheet is drawn with.
const BOARD: usize = 2_048;

const WORK: usize = 4_096;

// So many verdicts, all bottom. Not by `vec!`, which clones: a kind does not promise that a clone never fails.
fn bottoms<K: Kind>(heap: Global, count: usize) -> Result<Vec<K>, AllocError>
    ensures { IfOk result (λ v. vec_len v ≡ count) }
{
    let bottom = K::bottom();
    let mut verdicts = Vec::new(heap);
    verdicts.resize_with(count, || bottom)?;
    Ok(verdicts)
}

// What is printed so far, and the number of the line that is being answered.
#[derive(Drop)]
pub struct Printout {
    pub text: String,
    pub line: usize,
}

impl Printout {
    ghost use Rattle.report.specs.Printouts.{Adds};

    // Nothing is printed yet.
    pub fn new(heap: Global) -> Printout
        ensures { (string_bytes result.text ≡ []) × (result.line ≡ 0) }
    {
        Printout {
            text: String::new(heap),
            line: 0,
        }
    }

    // The text that is printed.
    pub fn into_text(self) -> String
        ensures { result ≡ self.text }
    {
        let Printout { text, line: _ } = self;
        text
    }

    // Adds the line of a refusal: the number of the line that was refused, and the refusal's number.
    pub fn refuse(&mut self, refusal: Refusal) -> Result<(), AllocError>
        ensures { Adds result self.old self.new (refusal_text self.old.line refusal) }
    {
        let line = self.line;
        let number = u8::from(refusal);
        writeln!(self.text, "refused {line} {number}")
    }

    // Adds a call's refusal; an accepted call prints nothing.
    pub fn tell(&mut self, answer: Result<(), Refusal>) -> Result<(), AllocError>
        ensures { Adds result self.old self.new (unless_refused self.old.line (result_err answer) []) }
    {
        match answer {
            Ok(()) => Ok(()),
            Err(refusal) => self.refuse(refusal),
        }
    }

    // Adds the block of a sheet: the last row of what stands on the board.
    fn write_sheet<K: Printed>(&mut self, plan: &Draft, board: &[K]) -> Result<(), AllocError>
        requires some { 0 < length (plan_of plan.now).rows }
        requires room { area (plan_of plan.now) ≤ length board.now }
        ensures { Adds result self.old self.new (sheet_text K.Printed.text (plan_of plan.now) (shown (plan_of plan.now) board.now K.Kind.ops.bottom) self.old.line) }
    {
        let line = self.line;
        let last = plan.rows().len() - 1;
        let block = Block {
            plan,
            board,
            row: last as u32,
        };
        writeln!(self.text, "sheet {line}")?;
        block.write_places(&mut self.text)
    }

    // Draws a sheet on the board and adds its block, or adds the line of its refusal.
    fn draw_sheet<K: Printed, M: Measure, S: Store>(
        &mut self,
        survey: &Survey<S>,
        board: &mut [K],
        work: &mut [K],
    ) -> Result<(), AllocError>
        requires board { length board.old ≡ 2048 }
        requires work { length work.old ≡ 4096 }
        ensures { Adds result self.old self.new (sheet_report K.Kind.ops M.Measure.extend K.Printed.text (survey_of S.Store.most S.Readings.ranges survey.now) self.old.line) }
    {
        match survey.sheet::<K, M>(board, work) {
            Ok(()) => self.write_sheet(survey.plan(), board),
            Err(refusal) => self.refuse(refusal),
        }
    }

    // Draws a sheet and adds its block, or adds the line of its refusal.
    pub fn report_sheet<K: Printed, M: Measure, S: Store>(
        &mut self,
        survey: &Survey<S>,
    ) -> Result<(), AllocError>
        ensures { Adds result self.old self.new (sheet_report K.Kind.ops M.Measure.extend K.Printed.text (survey_of S.Store.most S.Readings.ranges survey.now) self.old.line) }
    {
        let heap = *self.text.allocator();
        let mut board = bottoms::<K>(heap, BOARD)?;
        let mut work = bottoms::<K>(heap, WORK)?;
        self.draw_sheet::<K, M, S>(survey, board.as_mut_slice(), work.as_mut_slice())
    }
}
