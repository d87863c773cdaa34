// The token, one field of a line.
#[derive(Clone, Copy, PartialEq, Eq, Debug)]
pub enum Token<'a> {
    // An optional minus, and the bytes that should be digits.
    Number { negative: bool, digits: &'a [u8] },
    Minus,
}
