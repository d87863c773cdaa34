// Counts of what came up.
use plain::Witness;
use std::alloc::{AllocError, Global};
use std::collections::BTreeMap;
use std::fmt;

#[derive(Drop)]
pub(crate) struct Tally {
    // how often each refusal came, by its number
    refusals: BTreeMap<u8, u64>,
    sheets: u64,
    // how many jobs were too long to be run, and on how many the two monitors differed
    pub(crate) long: u64,
    pub(crate) differ: u64,
}

impl Tally {
    pub(crate) fn new(heap: Global) -> Tally {
        Tally {
            refusals: BTreeMap::new(heap),
            sheets: 0,
            long: 0,
            differ: 0,
        }
    }

    // What a job came to.
    pub(crate) fn add(&mut self, witness: &Witness) -> Result<(), AllocError> {
        self.sheets = self.sheets.saturating_add(u64::from(witness.sheets()));
        for (number, times) in witness.refusals() {
            let sum = self.refusals.entry(*number)?.or_insert(0);
            *sum = sum.saturating_add(u64::from(*times));
        }
        Ok(())
    }
}

impl fmt::Display for Tally {
    fn fmt<W: fmt::Write>(&self, f: &mut fmt::Formatter<W>) -> fmt::Result {
        let Tally {
            refusals,
            sheets,
            long,
            differ,
        } = self;
        writeln!(f, "sheets: {sheets}")?;
        for (number, times) in refusals {
            writeln!(f, "refused {number}: {times}")?;
        }
        writeln!(f, "too long to be run: {long}")?;
        write!(f, "differ: {differ}")
    }
}
