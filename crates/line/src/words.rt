// The tokens of a line.
ghost use Rattle.std.specs.Prelude.{◌≡◌, map, IfOk};
ghost use Rattle.std.specs.Option.{option_map};
ghost use Rattle.line.specs.Line.{field, fields, token_field};

use crate::token::Token;
use std::alloc::{AllocError, Global};

fn read_token<'a>(word: &'a [u8]) -> Token<'a>
    ensures { token_field result ≡ field word.now }
{
    match word {
        [b'-'] => Token::Minus,
        [b'-', digits @ ..] => Token::Number {
            negative: true,
            digits,
        },
        digits => Token::Number {
            negative: false,
            digits,
        },
    }
}

// The tokens of what follows a line's letter, or none where something but a space follows it.
pub fn read_tokens<'a>(heap: Global, text: &'a [u8]) -> Result<Option<Vec<Token<'a>>>, AllocError>
    ensures { IfOk result (λ o. option_map (λ v. map token_field v.items) o ≡ fields text.now) }
{
    let words = match text {
        [] => return Ok(Some(Vec::new(heap))),
        [b' ', words @ ..] => words,
        _ => return Ok(None),
    };
    let tokens = words.split(|b| *b == b' ').map(read_token).collect(heap)?;
    Ok(Some(tokens))
}
