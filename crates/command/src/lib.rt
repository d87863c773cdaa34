// Reads a line of a job as a command.
#![tactic(auto)]

mod command;
mod forms;
mod part;
mod read;
mod rows;
mod sheet;

pub use command::Command;
pub use part::Part;
pub use read::read_command;
pub use sheet::{MeasureName, SheetKind};
