// The program `sheet`: a job comes in by standard input, and what it prints goes to standard output.
#![tactic(auto)]

use job::{MOST_BYTES, run_job};
use std::io;
use std::io::{Read, Write};

// One byte more than a job may have: a longer job is refused, and need not be read to its end.
const MOST_READ: u64 = MOST_BYTES as u64 + 1;

fn main(rt: HostRuntime) -> io::Result<()> {
    let mut job = Vec::new(rt.alloc());
    rt.stdin().take(MOST_READ).read_to_end(&mut job)?;
    let text = run_job(rt.alloc(), job.as_slice())?;
    rt.stdout().write_all(text.as_bytes())
}
