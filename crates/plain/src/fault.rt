// Why a line is refused.
use crate::misread::Misread;

// Each fault with the number that a job prints.
#[derive(Clone, Copy, PartialEq, Eq, Debug)]
pub(crate) enum Fault {
    BadSize = 1,
    BadPlace = 2,
    BadStep = 3,
    PipeTooLarge = 4,
    ManyPipes = 5,
    BadCode = 6,
    BadRow = 7,
    BadChannel = 8,
    BadInterval = 9,
    ManyRows = 10,
    ManyCells = 11,
    BadCell = 12,
    BadRange = 13,
    Outside = 15,
    NoRows = 19,
    ManyVerdicts = 20,
    ManyPlaces = 21,
    Inexact = 22,
    NoLetter = 23,
    Misspelt = 24,
    Misplaced = 25,
}

impl From<Misread> for Fault {
    fn from(misread: Misread) -> Fault {
        match misread {
            Misread::NoLetter => Fault::NoLetter,
            Misread::Misspelt => Fault::Misspelt,
        }
    }
}
