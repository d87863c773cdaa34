// Lines as text.
use crate::random::Random;
use command::{Command, MeasureName, SheetKind};
use network::{Distances, Pipe};
use plain::{Line, Misread};
use plan::{Size, Statement, Window};
use reading::Entry;
use std::alloc::AllocError;

// Lines that begin with a letter of a job, and are misspelt.
const MISSPELT: [&str; 35] = [
    "O 1 1",
    "O 1 1 1 1",
    "O 1 1 1 ",
    "O 01 1 1",
    "O -1 1 1",
    "O 12345678 1 1",
    "P 0 0 0 0 0",
    "P  0 0 0 0 0 0",
    "P 0 0 0 - 0 0",
    "R",
    "R ",
    "R -1",
    "R 1 0",
    "R 2 -1",
    "R 7 0 0 0",
    "R 8 0 - 3",
    "R 10 -",
    "S 1",
    "Sx",
    "E 0 0 0 -0 5",
    "E 0 0 0 5",
    "y 4",
    "M",
    "m 1 1",
    "y 0",
    "S ",
    "R 9 1",
    "R 7 0 0 - 5",
    "R 5 0 0 0 -",
    "R 10 -0",
    "O +1 1 1",
    "E 0 0 0 --1 5",
    "S\r",
    "O\t1 1 1",
    // 82 bytes
    "R 10 1 1 1 1 1 1 1 1 1 1 1 1 1 1 1 1 1 1 1 1 1 1 1 1 1 1 1 1 1 1 1 1 1 1 1 1 1 1 1",
];

// Lines that begin with no letter of a job.
const NO_LETTER: [&str; 8] = [
    "",
    " O 1 1 1",
    "X",
    "o 1 1 1",
    "1",
    "-",
    "\t",
    // 82 bytes
    "x 10 1 1 1 1 1 1 1 1 1 1 1 1 1 1 1 1 1 1 1 1 1 1 1 1 1 1 1 1 1 1 1 1 1 1 1 1 1 1 1",
];

// Rows of codes that name no statement.
const UNKNOWN: [&str; 8] = [
    "R 0",
    "R 8",
    "R 8 0 1 2",
    "R 10",
    "R 11 -5 7",
    "R 9999999 1 2 3 4 5 6",
    "R 99 0",
    // 80 bytes
    "R 10 1 1 1 1 1 1 1 1 1 1 1 1 1 1 1 1 1 1 1 1 1 1 1 1 1 1 1 1 1 1 1 1 1 1 1 1 1 1",
];

fn letter(kind: SheetKind) -> &'static str {
    match kind {
        SheetKind::YesNo => "y",
        SheetKind::Margin => "m",
        SheetKind::YesNoSpan => "Y",
        SheetKind::MarginSpan => "M",
    }
}

fn number(measure: MeasureName) -> u32 {
    match measure {
        MeasureName::Hops => 1,
        MeasureName::Lengths => 2,
        MeasureName::Drops => 3,
    }
}

fn spell_window(code: u32, window: Window, out: &mut String) -> Result<(), AllocError> {
    let Window {
        hold,
        goal,
        from,
        upto,
    } = window;
    write!(out, "R {code} {hold} {goal} {from} {upto}")
}

fn spell_row(statement: Statement, out: &mut String) -> Result<(), AllocError> {
    match statement {
        Statement::AtLeast { channel, limit } => write!(out, "R 1 {channel} {limit}"),
        Statement::Not { row } => write!(out, "R 2 {row}"),
        Statement::And { left, right } => write!(out, "R 3 {left} {right}"),
        Statement::Or { left, right } => write!(out, "R 4 {left} {right}"),
        Statement::Until(window) => spell_window(5, window, out),
        Statement::Since(window) => spell_window(6, window, out),
        Statement::Reach {
            through,
            goal,
            distances: Distances { from, upto },
        } => match upto {
            Some(most) => write!(out, "R 7 {through} {goal} {from} {most}"),
            None => write!(out, "R 7 {through} {goal} {from} -"),
        },
        Statement::Yes => out.push_str("R 9"),
    }
}

fn spell_size(size: Size, out: &mut String) -> Result<(), AllocError> {
    let Size {
        places,
        steps,
        channels,
    } = size;
    write!(out, "O {places} {steps} {channels}")
}

fn spell_pipe(pipe: Pipe, out: &mut String) -> Result<(), AllocError> {
    let Pipe {
        from,
        to,
        length,
        drop,
        first,
        last,
    } = pipe;
    write!(out, "P {from} {to} {length} {drop} {first} {last}")
}

fn spell_entry(entry: Entry, out: &mut String) -> Result<(), AllocError> {
    let Entry {
        channel,
        place,
        step,
        low,
        high,
    } = entry;
    write!(out, "E {channel} {place} {step} {low} {high}")
}

fn spell_command(
    random: &mut Random,
    command: Command,
    out: &mut String,
) -> Result<(), AllocError> {
    match command {
        Command::Open(size) => spell_size(size, out),
        Command::LayPipe(pipe) => spell_pipe(pipe, out),
        Command::WriteRow(Some(statement)) => spell_row(statement, out),
        Command::WriteRow(None) => out.push_str(random.of(&UNKNOWN)),
        Command::Seal => out.push_str("S"),
        Command::Enter(entry) => spell_entry(entry, out),
        Command::DrawSheet { kind, measure } => {
            write!(out, "{} {}", letter(kind), number(measure))
        }
    }
}

// Adds a line, and the line feed that ends it.
pub(crate) fn spell(random: &mut Random, line: Line, out: &mut String) -> Result<(), AllocError> {
    match line {
        Ok(command) => spell_command(random, command, out)?,
        Err(Misread::Misspelt) => out.push_str(random.of(&MISSPELT))?,
        Err(Misread::NoLetter) => out.push_str(random.of(&NO_LETTER))?,
    }
    out.push_str("\n")
}
