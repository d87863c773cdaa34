// Why a call is refused, and the number that stands for each reason.
#![tactic(auto)]

ghost use Rattle.std.specs.Prelude.{◌≡◌};
ghost use Rattle.refusal.specs.Numbers.{number};

// Why a call was refused. A refused call changes nothing.
#[derive(Clone, Copy, PartialEq, Eq, Debug)]
pub enum Refusal {
    // places, steps or channels outside their limits
    OutsideLimits,
    // a pipe's end is no place
    NoSuchPlace,
    // a pipe's first step is after its last, or its last is no step
    NoSuchStep,
    // a pipe's length or drop is above 1,000
    TooLarge,
    // 255 pipes are laid
    PipesFull,
    // a row's code is none that is known
    NoSuchCode,
    // a row refers to a row that is not written yet
    NoSuchRow,
    // a row names no channel, or its limit lies beyond the limits of readings
    NoSuchChannel,
    // a row's lower end is above its upper end, a step is above 63, or a distance above 127
    NoInterval,
    // 32 rows stand
    RowsFull,
    // the store's cells are not those of the plan
    OtherCells,
    // an entry names no channel, place, step or cell
    NoSuchCell,
    // an entry's low end is above its high end, or an end is beyond the limits
    NoRange,
    // an entry does not lie inside the range held
    NotInside,
    // the store has no room for one more cell that is not widest
    StoreFull,
    // the plan has no row
    NoRow,
    // the board is too short
    ShortBoard,
    // the work is too short
    ShortWork,
    // the verdict kind takes no ranges, and this is the smallest cell that is not exact
    NotExact { cell: usize },
    // a job's line is empty, or begins with none of the letters
    NoLetter,
    // a job's line is too long, or is not its letter and the numbers that go with it; or the job is too long
    Misspelt,
    // a job's line comes where its letter has no place
    OutOfPlace,
}

// The number that a job prints.
impl From<Refusal> for u8 {
    ghost from_gives = { λ refusal result. result ≡ number refusal };

    fn from(refusal: Refusal) -> u8 {
        match refusal {
            Refusal::OutsideLimits => 1,
            Refusal::NoSuchPlace => 2,
            Refusal::NoSuchStep => 3,
            Refusal::TooLarge => 4,
            Refusal::PipesFull => 5,
            Refusal::NoSuchCode => 6,
            Refusal::NoSuchRow => 7,
            Refusal::NoSuchChannel => 8,
            Refusal::NoInterval => 9,
            Refusal::RowsFull => 10,
            Refusal::OtherCells => 11,
            Refusal::NoSuchCell => 12,
            Refusal::NoRange => 13,
            Refusal::NotInside => 15,
            Refusal::StoreFull => 16,
            Refusal::NoRow => 19,
            Refusal::ShortBoard => 20,
            Refusal::ShortWork => 21,
            Refusal::NotExact { .. } => 22,
            Refusal::NoLetter => 23,
            Refusal::Misspelt => 24,
            Refusal::OutOfPlace => 25,
        }
    }
}
