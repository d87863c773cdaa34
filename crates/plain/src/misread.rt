// The lines of a job as they are meant.
use command::Command;

// Why a line is no command.
#[derive(Clone, Copy, PartialEq, Eq, Debug)]
pub enum Misread {
    // is empty, or begins with no letter of a job
    NoLetter,
    // begins with a letter of a job, but is misspelt
    Misspelt,
}

pub type Line = Result<Command, Misread>;
