// The trait of measures, and the three measures.
ghost use Rattle.std.specs.Prelude.{◌≡◌, ◌+◌};
ghost use Rattle.network.specs.Measures.{Extend, Measures, by_hops, by_lengths, by_drops, capped, hops_laws, lengths_laws, drops_laws};

use crate::pipe::Pipe;

// Extends a distance by a pipe. A distance is at most 65,535.
pub trait Measure {
    ghost extend: { Extend };

    ghost laws: { Measures extend };

    fn extended(distance: u16, pipe: &Pipe) -> u16
        ensures { result ≡ extend distance pipe.now };
}

// A sum of distances, capped.
fn capped_sum(distance: u16, more: u32) -> u16
    ensures { result ≡ capped (distance + more) }
{
    u32::from(distance).saturating_add(more).min(65_535) as u16
}

// How many pipes a route has.
#[derive(Clone, Copy, PartialEq, Eq, Debug)]
pub struct Hops;

impl Measure for Hops {
    ghost extend = { by_hops };

    ghost laws = { hops_laws };

    fn extended(distance: u16, _pipe: &Pipe) -> u16 {
        capped_sum(distance, 1)
    }
}

// How long a route is.
#[derive(Clone, Copy, PartialEq, Eq, Debug)]
pub struct Lengths;

impl Measure for Lengths {
    ghost extend = { by_lengths };

    ghost laws = { lengths_laws };

    fn extended(distance: u16, pipe: &Pipe) -> u16 {
        capped_sum(distance, pipe.length)
    }
}

// The greatest drop on a route.
#[derive(Clone, Copy, PartialEq, Eq, Debug)]
pub struct Drops;

impl Measure for Drops {
    ghost extend = { by_drops };

    ghost laws = { drops_laws };

    fn extended(distance: u16, pipe: &Pipe) -> u16 {
        u32::from(distance).max(pipe.drop).min(65_535) as u16
    }
}
