// Runs each job that is named as an argument, and compares what it prints with what it should print.
#![tactic(auto)]

use job::run_job;
use std::rt::Files;
use std::{env, fs, io};

// Whether the job of a name prints what it should.
fn as_expected(rt: &(impl Files + AllocGlobal), name: &str) -> io::Result<bool> {
    let job = fs::read(rt, format!(in rt.alloc(); "{name}.job")?)?;
    let expected = fs::read(rt, format!(in rt.alloc(); "{name}.out")?)?;
    let text = run_job(rt.alloc(), job.as_slice())?;
    Ok(text.as_bytes() == expected.as_slice())
}

fn main(rt: HostRuntime) -> io::Result<()> {
    let mut count = 0u32;
    let mut differ = 0u32;
    for name in env::args(&rt)?.skip(1) {
        count = count.saturating_add(1);
        if as_expected(&rt, name.as_str())? {
            println!(rt; "ok {name}")?;
        } else {
            differ = differ.saturating_add(1);
            println!(rt; "DIFFERS {name}")?;
        }
    }
    println!(rt; "{count} jobs, {differ} differ")
}
