// The number that a token writes.
ghost use Rattle.std.specs.Prelude.{◌≡◌, ◌^◌, ◌<◌, ◌≤◌, true, length};
ghost use Rattle.line.specs.Line.{decimal, digits as all_digits, well, integer, natural, token_field};

use crate::token::Token;

fn all_digits(text: &[u8]) -> bool
    ensures { result ≡ all_digits text.now }
{
    text.iter().all(|b| b.is_ascii_digit())
}

// Whether these are 1 to 7 digits with no spare zero, and no -0.
fn well_formed(negative: bool, digits: &[u8]) -> bool
    ensures { result ≡ well negative digits.now }
{
    match digits {
        [] => false,
        [b'0'] => !negative,
        [b'0', ..] => false,
        _ => digits.len() <= 7 && all_digits(digits),
    }
}

// The number that at most seven digits write.
#[tactic(auto, using(crate::proofs::Values::digit_sums))]
fn value(digits: &[u8]) -> u32
    requires few { length digits.now ≤ 7 }
    requires all { all_digits digits.now ≡ true }
    ensures { (result ≡ decimal digits.now) × (result < 10 ^ 7) }
{
    let mut sum: u32 = 0;
    for (i, b) in digits.iter().enumerate() {
        let weight = 10u32.pow((digits.len() - 1 - i) as u32);
        sum += u32::from(*b - b'0') * weight;
    }
    sum
}

impl<'a> Token<'a> {
    // The integer that a well-spelt number writes.
    pub fn integer(self) -> Option<i32>
        ensures { result ≡ integer (token_field self.entry) }
    {
        let Token::Number { negative, digits } = self else {
            return None;
        };
        if !well_formed(negative, digits) {
            return None;
        }
        let size = value(digits) as i32;
        Some(if negative { -size } else { size })
    }

    // The same, of a number that is not negative.
    pub fn natural(self) -> Option<u32>
        ensures { result ≡ natural (token_field self.entry) }
    {
        u32::try_from(self.integer()?).ok()
    }
}
