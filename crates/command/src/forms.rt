// The form of each command: how many fields follow its letter, and what each says.
ghost use Rattle.std.specs.Prelude.{◌≡◌, map};
ghost use Rattle.line.specs.Line.{token_field};
ghost use Rattle.command.specs.Commands.{opening, laying, writing, sealing, entering, drawing, said};

use crate::command::Command;
use crate::rows::read_row;
use crate::sheet::{MeasureName, SheetKind};
use line::Token;
use network::Pipe;
use plan::Size;
use reading::Entry;

// `O places steps channels`
fn read_open(tokens: &[Token]) -> Option<Command>
    ensures { result ≡ opening (map token_field tokens.now) }
{
    let [places, steps, channels] = tokens else {
        return None;
    };
    Some(Command::Open(Size {
        places: places.natural()?,
        steps: steps.natural()?,
        channels: channels.natural()?,
    }))
}

// `P from to length drop first last`
fn read_pipe(tokens: &[Token]) -> Option<Command>
    ensures { result ≡ laying (map token_field tokens.now) }
{
    let [from, to, length, drop, first, last] = tokens else {
        return None;
    };
    Some(Command::LayPipe(Pipe {
        from: from.natural()?,
        to: to.natural()?,
        length: length.natural()?,
        drop: drop.natural()?,
        first: first.natural()?,
        last: last.natural()?,
    }))
}

// `R code fields`
fn read_write(tokens: &[Token]) -> Option<Command>
    ensures { result ≡ writing (map token_field tokens.now) }
{
    read_row(tokens).map(Command::WriteRow)
}

// `S`
fn read_seal(tokens: &[Token]) -> Option<Command>
    ensures { result ≡ sealing (map token_field tokens.now) }
{
    tokens.is_empty().then_some(Command::Seal)
}

// `E channel place step low high`, where only the ends may be negative
fn read_entry(tokens: &[Token]) -> Option<Command>
    ensures { result ≡ entering (map token_field tokens.now) }
{
    let [channel, place, step, low, high] = tokens else {
        return None;
    };
    Some(Command::Enter(Entry {
        channel: channel.natural()?,
        place: place.natural()?,
        step: step.natural()?,
        low: low.integer()?,
        high: high.integer()?,
    }))
}

// The measure after a sheet's letter.
fn read_sheet(kind: SheetKind, tokens: &[Token]) -> Option<Command>
    ensures { result ≡ drawing kind (map token_field tokens.now) }
{
    let [measure] = tokens else {
        return None;
    };
    Some(Command::DrawSheet {
        kind,
        measure: MeasureName::try_from(measure.natural()?).ok()?,
    })
}

// The command of a letter and the fields after it.
pub(crate) fn read_form(letter: char, tokens: &[Token]) -> Option<Command>
    ensures { result ≡ said letter (map token_field tokens.now) }
{
    match letter {
        'O' => read_open(tokens),
        'P' => read_pipe(tokens),
        'R' => read_write(tokens),
        'S' => read_seal(tokens),
        'E' => read_entry(tokens),
        'y' => read_sheet(SheetKind::YesNo, tokens),
        'm' => read_sheet(SheetKind::Margin, tokens),
        'Y' => read_sheet(SheetKind::YesNoSpan, tokens),
        'M' => read_sheet(SheetKind::MarginSpan, tokens),
        _ => None,
    }
}
