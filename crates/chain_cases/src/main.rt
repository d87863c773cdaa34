// A survey over a chain with few records: entries until it is full, and what it still takes then; the same calls on a full
// table beside it.
#![tactic(auto)]

use chain::Chain;
use network::Hops;
use plan::{Draft, Size, Statement};
use reading::Entry;
use refusal::Refusal;
use std::alloc::{AllocError, Global};
use std::io;
use store::{Store, Table};
use survey::Survey;
use verdict::{Kind, Margin, Printed, Span};

// A call on a survey.
#[derive(Clone, Copy, PartialEq, Eq, Debug)]
enum Call {
    Enter(Entry),
    Sheet,
}

// Four places, one step, one channel: four cells. The one row is how far the level lies above 100.
fn plan_of_four(heap: Global) -> Result<Draft, AllocError> {
    let size = Size {
        places: 4,
        steps: 1,
        channels: 1,
    };
    let mut draft = Draft::open(heap, size)?;
    let _ = draft.add_row(Some(Statement::AtLeast {
        channel: 0,
        limit: 100,
    }));
    Ok(draft)
}

// An entry in channel 0 at step 0.
fn entry(place: u32, low: i32, high: i32) -> Call {
    Call::Enter(Entry {
        channel: 0,
        place,
        step: 0,
        low,
        high,
    })
}

// A refusal's number, or 0 for an accepted call.
fn number_of(answer: Result<(), Refusal>) -> u8 {
    answer.err().map_or(0, u8::from)
}

// Draws a sheet, and writes its answer and its spans in brackets.
fn write_sheet<S: Store>(
    heap: Global,
    survey: &Survey<S>,
    text: &mut String,
) -> Result<(), AllocError> {
    let mut board = vec![in heap; Span::<Margin>::bottom(); 4]?;
    let mut work = vec![in heap; Span::<Margin>::bottom(); 1_024]?;
    let number = number_of(survey.sheet::<Span<Margin>, Hops>(
        board.as_mut_slice(),
        work.as_mut_slice(),
    ));
    write!(text, " {number}")?;
    for span in board.as_slice() {
        text.push_str(" [")?;
        span.write(text)?;
        text.push_str("]")?;
    }
    Ok(())
}

// Makes the calls on a new survey over a store.
fn answers<S: Store + Drop>(
    rt: &(impl Print + AllocGlobal),
    title: &str,
    store: S,
    calls: &[Call],
) -> io::Result<()> {
    let draft = plan_of_four(rt.alloc())?;
    let mut survey = Survey::seal(draft, store, 3);
    let mut text = String::new(rt.alloc());
    for call in calls {
        match *call {
            Call::Enter(entry) => {
                let number = number_of(survey.enter(entry));
                write!(text, " {number}")?;
            }
            Call::Sheet => write_sheet(rt.alloc(), &survey, &mut text)?,
        }
    }
    println!(rt; "{title}:{text}")
}

// The same calls on a table, on a chain with a record for each cell, and on one with two records.
fn compare(rt: &(impl Print + AllocGlobal), title: &str, calls: &[Call]) -> io::Result<()> {
    println!(rt; "{title}")?;
    answers(rt, "  table  ", Table::new(rt.alloc(), 4)?, calls)?;
    answers(rt, "  chain 4", Chain::new(rt.alloc(), 4, 4)?, calls)?;
    answers(rt, "  chain 2", Chain::new(rt.alloc(), 4, 2)?, calls)
}

fn main(rt: HostRuntime) -> io::Result<()> {
    compare(
        &rt,
        "four cells, from the last to the first",
        &[
            entry(3, 103, 113),
            entry(2, 102, 112),
            entry(1, 101, 111),
            entry(0, 100, 110),
            Call::Sheet,
        ],
    )?;
    compare(
        &rt,
        "a full chain narrows what it has",
        &[
            entry(1, 0, 200),
            entry(3, 0, 200),
            entry(1, 50, 150),
            entry(3, 0, 300),
            entry(2, 0, 200),
            entry(1, 60, 60),
            Call::Sheet,
        ],
    )?;
    compare(
        &rt,
        "the widest range takes no record",
        &[
            entry(0, -1_000_000, 1_000_000),
            entry(1, -1_000_000, 1_000_000),
            entry(2, -1_000_000, 1_000_000),
            entry(2, -1_000_000, 999_999),
            entry(0, -999_999, 1_000_000),
            entry(1, -1_000_000, 1_000_000),
            entry(1, 5, 5),
            entry(4, 5, 5),
        ],
    )?;
    println!(rt; "a store that lacks cells 2 and 3")?;
    answers(
        &rt,
        "  chain 2",
        Chain::new(rt.alloc(), 2, 2)?,
        &[
            entry(1, 101, 102),
            entry(2, 101, 102),
            entry(3, 102, 101),
            Call::Sheet,
        ],
    )
}
