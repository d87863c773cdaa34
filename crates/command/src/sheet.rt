// What a sheet is drawn with.
ghost use Rattle.std.specs.Prelude.{◌≡◌};
ghost use Rattle.command.specs.Commands.{measured, or_misspelt};

use refusal::Refusal;

// Which verdicts a sheet shows.
#[derive(Clone, Copy, PartialEq, Eq, Debug)]
pub enum SheetKind {
    YesNo,
    Margin,
    YesNoSpan,
    MarginSpan,
}

// The measure of distance that a sheet is drawn with.
#[derive(Clone, Copy, PartialEq, Eq, Debug)]
pub enum MeasureName {
    Hops,
    Lengths,
    Drops,
}

// Any other number is misspelt.
impl TryFrom<u32> for MeasureName {
    type Error = Refusal;

    ghost try_from_gives = { λ number r. r ≡ or_misspelt (measured number) };

    fn try_from(number: u32) -> Result<MeasureName, Refusal> {
        match number {
            1 => Ok(MeasureName::Hops),
            2 => Ok(MeasureName::Lengths),
            3 => Ok(MeasureName::Drops),
            _ => Err(Refusal::Misspelt),
        }
    }
}
