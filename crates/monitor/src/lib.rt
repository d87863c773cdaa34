// The monitor: draws the verdicts of a plan's rows on a board.
#![tactic(auto)]

mod cases;
mod drawing;
mod row;

pub use cases::until_is_bottom_at_the_end;
pub use drawing::draw;
