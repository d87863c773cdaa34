// Drawing the sheet that a line asks for.
ghost use Rattle.std.specs.Prelude.{◌≡◌, ◌++◌, string_bytes, OnOk};
ghost use Rattle.survey.specs.Surveys.{survey_of};
ghost use Rattle.job.specs.Jobs.{kind_report, measure as measure_of};

use command::{MeasureName, SheetKind};
use network::{Drops, Hops, Lengths, Measure};
use report::Printout;
use std::alloc::AllocError;
use store::Store;
use survey::Survey;
use verdict::{Margin, Span, YesNo};

// A sheet of the kind, with a measure.
fn report_kind<M: Measure, S: Store>(
    kind: SheetKind,
    survey: &Survey<S>,
    out: &mut Printout,
) -> Result<(), AllocError>
    ensures { OnOk result (string_bytes out.new.text ≡ string_bytes out.old.text ++ kind_report kind M.Measure.extend (survey_of S.Store.most S.Readings.ranges survey.now) out.old.line) }
{
    match kind {
        SheetKind::YesNo => out.report_sheet::<YesNo, M, S>(survey),
        SheetKind::Margin => out.report_sheet::<Margin, M, S>(survey),
        SheetKind::YesNoSpan => out.report_sheet::<Span<YesNo>, M, S>(survey),
        SheetKind::MarginSpan => out.report_sheet::<Span<Margin>, M, S>(survey),
    }
}

// A sheet of the kind, with the measure.
pub(crate) fn report_drawing<S: Store>(
    kind: SheetKind,
    measure: MeasureName,
    survey: &Survey<S>,
    out: &mut Printout,
) -> Result<(), AllocError>
    ensures { OnOk result (string_bytes out.new.text ≡ string_bytes out.old.text ++ kind_report kind (measure_of measure) (survey_of S.Store.most S.Readings.ranges survey.now) out.old.line) }
{
    match measure {
        MeasureName::Hops => report_kind::<Hops, S>(kind, survey, out),
        MeasureName::Lengths => report_kind::<Lengths, S>(kind, survey, out),
        MeasureName::Drops => report_kind::<Drops, S>(kind, survey, out),
    }
}
