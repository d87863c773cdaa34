// The rows that a line can write: a code, and the fields that go with it.
ghost use Rattle.std.specs.Prelude.{◌≡◌, map};
ghost use Rattle.line.specs.Line.{token_field};
ghost use Rattle.command.specs.Commands.{at_least_row, not_row, row_pair, row_window, upper, reach_row, yes_row, numbers, coded, written};

use line::Token;
use network::Distances;
use plan::{Row, Statement, Window};

// `channel k`, where only the limit k may be negative
fn at_least_row(fields: &[Token]) -> Option<Statement>
    ensures { result ≡ at_least_row (map token_field fields.now) }
{
    let [channel, limit] = fields else {
        return None;
    };
    Some(Statement::AtLeast {
        channel: channel.natural()?,
        limit: limit.integer()?,
    })
}

// `r`
fn not_row(fields: &[Token]) -> Option<Statement>
    ensures { result ≡ not_row (map token_field fields.now) }
{
    let [row] = fields else {
        return None;
    };
    Some(Statement::Not {
        row: row.natural()?,
    })
}

// `r s`
fn row_pair(fields: &[Token]) -> Option<(u32, u32)>
    ensures { result ≡ row_pair (map token_field fields.now) }
{
    let [left, right] = fields else {
        return None;
    };
    Some((left.natural()?, right.natural()?))
}

// `r s a b`
fn row_window(fields: &[Token]) -> Option<Window>
    ensures { result ≡ row_window (map token_field fields.now) }
{
    let [hold, goal, from, upto] = fields else {
        return None;
    };
    Some(Window {
        hold: hold.natural()?,
        goal: goal.natural()?,
        from: from.natural()?,
        upto: upto.natural()?,
    })
}

// An upper distance, which a lone minus leaves out.
fn upper_distance(token: Token) -> Option<Option<u32>>
    ensures { result ≡ upper (token_field token.entry) }
{
    match token {
        Token::Minus => Some(None),
        _ => token.natural().map(Some),
    }
}

// `r s d1 d2`
fn reach_row(fields: &[Token]) -> Option<Statement>
    ensures { result ≡ reach_row (map token_field fields.now) }
{
    let [through, goal, from, upto] = fields else {
        return None;
    };
    Some(Statement::Reach {
        through: through.natural()?,
        goal: goal.natural()?,
        distances: Distances {
            from: from.natural()?,
            upto: upper_distance(*upto)?,
        },
    })
}

// no fields
fn yes_row(fields: &[Token]) -> Option<Statement>
    ensures { result ≡ yes_row (map token_field fields.now) }
{
    fields.is_empty().then_some(Statement::Yes)
}

// Whether each field is a number, negative or not.
fn all_numbers(fields: &[Token]) -> bool
    ensures { result ≡ numbers (map token_field fields.now) }
{
    fields.iter().all(|field| field.integer().is_some())
}

// A code that names no statement takes any numbers.
fn coded_row(code: u32, fields: &[Token]) -> Option<Row>
    ensures { result ≡ coded code (map token_field fields.now) }
{
    let statement = match code {
        1 => at_least_row(fields),
        2 => not_row(fields),
        3 => row_pair(fields).map(|(left, right)| Statement::And { left, right }),
        4 => row_pair(fields).map(|(left, right)| Statement::Or { left, right }),
        5 => row_window(fields).map(Statement::Until),
        6 => row_window(fields).map(Statement::Since),
        7 => reach_row(fields),
        9 => yes_row(fields),
        _ => return all_numbers(fields).then_some(None),
    };
    statement.map(Some)
}

// `code fields`
pub(crate) fn read_row(tokens: &[Token]) -> Option<Row>
    ensures { result ≡ written (map token_field tokens.now) }
{
    let (code, fields) = tokens.split_first()?;
    coded_row(code.natural()?, fields)
}
