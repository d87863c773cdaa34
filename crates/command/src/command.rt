// The command, what a line of a job asks for.
use crate::sheet::{MeasureName, SheetKind};
use network::Pipe;
use plan::{Row, Size};
use reading::Entry;

// The numbers are as the line has them; whether they can be granted is not looked at here.
#[derive(Clone, Copy, PartialEq, Eq, Debug)]
pub enum Command {
    Open(Size),
    LayPipe(Pipe),
    WriteRow(Row),
    Seal,
    Enter(Entry),
    DrawSheet {
        kind: SheetKind,
        measure: MeasureName,
    },
}
