// Verdicts: yes or no, a margin, or the span of a kind.
#![tactic(auto)]

mod kind;
mod limit;
mod margin;
mod printed;
mod span;
mod yesno;

pub use kind::Kind;
pub use margin::Margin;
pub use printed::Printed;
pub use span::Span;
pub use yesno::YesNo;
