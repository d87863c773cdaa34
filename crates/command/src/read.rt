// Reads a line: its letter first, then its spelling, then whether it stands in its place.
ghost use Rattle.std.specs.Prelude.{◌≡◌, IfOk};
ghost use Rattle.command.specs.Commands.{known, belongs as belongs_to, spelt, placed, command};

use crate::command::Command;
use crate::forms::read_form;
use crate::part::Part;
use line::read_tokens;
use refusal::Refusal;
use std::alloc::{AllocError, Global};

// How many bytes a line may have, its letter counted.
const MOST_BYTES: usize = 80;

fn is_letter(letter: char) -> bool
    ensures { result ≡ known letter }
{
    matches!(letter, 'O' | 'P' | 'R' | 'S' | 'E' | 'y' | 'm' | 'Y' | 'M')
}

// Whether a letter may stand in a part of a job.
fn belongs(part: Part, letter: char) -> bool
    ensures { result ≡ belongs_to part letter }
{
    match (part, letter) {
        (Part::Blank, 'O') => true,
        (Part::Drafting, 'P' | 'R' | 'S') => true,
        (Part::Sealed, 'E' | 'y' | 'm' | 'Y' | 'M') => true,
        _ => false,
    }
}

// The command of a letter and the bytes after it, if they are well spelt.
fn read_spelt(heap: Global, letter: char, rest: &[u8]) -> Result<Option<Command>, AllocError>
    ensures { IfOk result (λ o. o ≡ spelt letter rest.now) }
{
    // The letter is a byte too.
    if rest.len() >= MOST_BYTES {
        return Ok(None);
    }
    let Some(tokens) = read_tokens(heap, rest)? else {
        return Ok(None);
    };
    Ok(read_form(letter, &tokens))
}

// The command, if it is one and stands in its part.
fn check_place(part: Part, letter: char, read: Option<Command>) -> Result<Command, Refusal>
    ensures { result ≡ placed part letter read }
{
    let command = read.ok_or(Refusal::Misspelt)?;
    if !belongs(part, letter) {
        return Err(Refusal::OutOfPlace);
    }
    Ok(command)
}

// What a line asks for in its part of a job, or why it is refused.
pub fn read_command(
    heap: Global,
    part: Part,
    line: &[u8],
) -> Result<Result<Command, Refusal>, AllocError>
    ensures { IfOk result (λ x. x ≡ command part line.now) }
{
    let Some((first, rest)) = line.split_first() else {
        return Ok(Err(Refusal::NoLetter));
    };
    let letter = char::from(*first);
    if !is_letter(letter) {
        return Ok(Err(Refusal::NoLetter));
    }
    let read = read_spelt(heap, letter, rest)?;
    Ok(check_place(part, letter, read))
}
