// Cuts a text into lines, and what follows a line's letter into tokens, and reads numbers.
#![tactic(auto)]

mod number;
mod text;
mod token;
mod words;

pub use text::Lines;
pub use token::Token;
pub use words::read_tokens;
