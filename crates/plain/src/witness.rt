// What a job should print, line by line.
use crate::book::Book;
use crate::checks::check_size;
use crate::drawing::Drawing;
use crate::fault::Fault;
use crate::misread::Line;
use command::{Command, MeasureName, Part, SheetKind};
use std::alloc::{AllocError, Global};
use std::collections::BTreeMap;

// Follows a job's lines and says what each should print.
#[derive(Drop)]
pub struct Witness {
    part: Part,
    book: Book,
    line: u32,
    text: String,
    // how often each refusal came, by its number, and how many sheets were drawn
    refusals: BTreeMap<u8, u32>,
    sheets: u32,
}

impl Witness {
    pub fn new(heap: Global) -> Witness {
        Witness {
            part: Part::Blank,
            book: Book::new(heap),
            line: 0,
            text: String::new(heap),
            refusals: BTreeMap::new(heap),
            sheets: 0,
        }
    }

    // What the lines so far should print.
    pub fn text(&self) -> &str {
        self.text.as_str()
    }

    pub fn sheets(&self) -> u32 {
        self.sheets
    }

    // How often each refusal came, by its number.
    pub fn refusals(&self) -> &BTreeMap<u8, u32> {
        &self.refusals
    }

    // Whether a line is a command that stands in its part, and that the book takes.
    fn check(&self, line: Line) -> Result<Command, Fault> {
        let command = line?;
        match (self.part, command) {
            (Part::Blank, Command::Open(size)) => check_size(size)?,
            (Part::Drafting, Command::LayPipe(pipe)) => self.book.check_pipe(pipe)?,
            (Part::Drafting, Command::WriteRow(row)) => self.book.check_row(row)?,
            (Part::Drafting, Command::Seal) => self.book.check_cells()?,
            (Part::Sealed, Command::Enter(entry)) => self.book.check_entry(entry)?,
            (Part::Sealed, Command::DrawSheet { kind, .. }) => self.book.check_sheet(kind)?,
            _ => return Err(Fault::Misplaced),
        }
        Ok(command)
    }

    fn draw(
        &mut self,
        heap: Global,
        kind: SheetKind,
        measure: MeasureName,
    ) -> Result<(), AllocError> {
        let line = self.line;
        self.sheets = self.sheets.saturating_add(1);
        writeln!(self.text, "sheet {line}")?;
        let drawing = Drawing::new(heap, &self.book, kind, measure)?;
        drawing.write(&mut self.text)
    }

    // Does what a command asks for that has passed its check.
    fn obey(&mut self, heap: Global, command: Command) -> Result<(), AllocError> {
        match command {
            Command::Open(size) => {
                self.book.size = size;
                self.part = Part::Drafting;
            }
            Command::LayPipe(pipe) => self.book.pipes.push(pipe)?,
            Command::WriteRow(row) => self.book.rows.extend(row)?,
            Command::Seal => {
                self.book.fill(heap)?;
                self.part = Part::Sealed;
            }
            Command::Enter(entry) => self.book.enter(entry),
            Command::DrawSheet { kind, measure } => self.draw(heap, kind, measure)?,
        }
        Ok(())
    }

    fn refuse(&mut self, fault: Fault) -> Result<(), AllocError> {
        let line = self.line;
        let number = fault as u8;
        let times = self.refusals.entry(number)?.or_insert(0);
        *times = times.saturating_add(1);
        writeln!(self.text, "refused {line} {number}")
    }

    // Follows one line more.
    pub fn follow(&mut self, heap: Global, line: Line) -> Result<(), AllocError> {
        self.line = self.line.saturating_add(1);
        match self.check(line) {
            Ok(command) => self.obey(heap, command),
            Err(fault) => self.refuse(fault),
        }
    }
}
