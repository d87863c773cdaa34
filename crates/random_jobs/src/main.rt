// Makes random jobs, runs each, and compares what it prints with what the second monitor says. Two arguments: a seed, and how
// many jobs.
#![tactic(auto)]

mod making;
mod random;
mod spelling;
mod tally;

use crate::making::make_lines;
use crate::random::Random;
use crate::spelling::spell;
use crate::tally::Tally;
use job::run_job;
use plain::{Line, Witness};
use std::alloc::{AllocError, Global};
use std::{env, io};

// A job of more bytes is not run.
const MOST_BYTES: usize = 8_192;

// The text of a job. Its last line may lack the line feed, unless it is empty.
fn job_text(heap: Global, random: &mut Random, lines: &[Line]) -> Result<String, AllocError> {
    let mut text = String::new(heap);
    for line in lines {
        spell(random, *line, &mut text)?;
    }
    if random.one_in(2) && !text.as_str().ends_with("\n\n") {
        let _ = text.pop();
    }
    Ok(text)
}

// Makes one job, runs it, and prints it where the two monitors differ.
fn try_job(
    rt: &(impl Print + AllocGlobal),
    random: &mut Random,
    number: u32,
    tally: &mut Tally,
) -> io::Result<()> {
    let lines = make_lines(rt.alloc(), random, number)?;
    let job = job_text(rt.alloc(), random, lines.as_slice())?;
    let printed = run_job(rt.alloc(), job.as_bytes())?;
    let mut witness = Witness::new(rt.alloc());
    let expected = if job.len() > MOST_BYTES {
        tally.long = tally.long.saturating_add(1);
        "refused 0 24\n"
    } else {
        for line in lines.as_slice() {
            witness.follow(rt.alloc(), *line)?;
        }
        tally.add(&witness)?;
        witness.text()
    };
    if printed.as_str() == expected {
        return Ok(());
    }
    tally.differ = tally.differ.saturating_add(1);
    println!(rt; "job {number} differs:\n{job}")?;
    println!(rt; "the second monitor says:\n{expected}")?;
    println!(rt; "it prints:\n{printed}")
}

fn main(rt: HostRuntime) -> io::Result<()> {
    let mut args = env::args(&rt)?.skip(1);
    let seed = args
        .next()
        .and_then(|word| word.as_str().parse::<u64>().ok())
        .unwrap_or(1);
    // Where several words follow the seed, the last that is a number counts.
    let count = args.fold(
        1_000,
        |count, word| word.as_str().parse::<u32>().unwrap_or(count),
    );
    let mut random = Random::new(seed);
    let mut tally = Tally::new(rt.alloc());
    for number in 0..count {
        try_job(&rt, &mut random, number, &mut tally)?;
    }
    println!(rt; "{count} jobs from seed {seed}")?;
    println!(rt; "{tally}")
}
