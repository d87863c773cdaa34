// The block of lines that shows a sheet.
ghost use Rattle.std.specs.Prelude.{◌≡◌, ◌+◌, ◌<◌, ◌≤◌, ◌++◌, length, string_bytes, OnOk};
ghost use Rattle.plan.specs.Plans.{index};
ghost use Rattle.plan.specs.Drafts.{plan_of};
ghost use Rattle.monitor.specs.Boards.{shown};
ghost use Rattle.report.specs.Texts.{steps_text, place_text, places_text};

use plan::Draft;
use std::alloc::AllocError;
use verdict::Printed;

// A row of a plan, and the board on which its verdicts stand.
#[derive(Drop)]
pub(crate) struct Block<'a, K> {
    pub(crate) plan: &'a Draft,
    pub(crate) board: &'a [K],
    pub(crate) row: u32,
    ghost room: { index (plan_of plan.now) (row + 1) 0 0 ≤ length board.now },
}

impl<K: Printed> Block<'_, K> {
    // Adds the row's verdicts at a place, step by step.
    fn write_steps(&self, place: u32, out: &mut String) -> Result<(), AllocError>
        requires { place < self.now.plan.now.places }
        ensures { OnOk result (string_bytes out.new ≡ string_bytes out.old ++ steps_text K.Printed.text (shown (plan_of self.now.plan.now) self.now.board.now K.Kind.ops.bottom) self.now.row place 0 (plan_of self.now.plan.now).steps) }
    {
        for step in 0..self.plan.steps() {
            out.push_str(" ")?;
            self.board[self.plan.index(self.row, step, place)].write(out)?;
        }
        Ok(())
    }

    // Adds the line of a place.
    fn write_place(&self, place: u32, out: &mut String) -> Result<(), AllocError>
        requires { place < self.now.plan.now.places }
        ensures { OnOk result (string_bytes out.new ≡ string_bytes out.old ++ place_text K.Printed.text (plan_of self.now.plan.now) (shown (plan_of self.now.plan.now) self.now.board.now K.Kind.ops.bottom) self.now.row place) }
    {
        write!(out, "{place}")?;
        self.write_steps(place, out)?;
        out.push_str("\n")
    }

    // Adds the lines of all places.
    pub(crate) fn write_places(&self, out: &mut String) -> Result<(), AllocError>
        ensures { OnOk result (string_bytes out.new ≡ string_bytes out.old ++ places_text K.Printed.text (plan_of self.now.plan.now) (shown (plan_of self.now.plan.now) self.now.board.now K.Kind.ops.bottom) self.now.row 0 (plan_of self.now.plan.now).places) }
    {
        for place in 0..self.plan.places() {
            self.write_place(place, out)?;
        }
        Ok(())
    }
}
