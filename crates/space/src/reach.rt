// Reach at one step.
ghost use Rattle.std.specs.Prelude.{◌≡◌, ℕ, ◌*◌, ◌<◌, ◌≤◌, length};
ghost use Rattle.network.specs.Routes.{Joined};
ghost use Rattle.space.specs.Levels.{cap, tall, gathered, reached};
ghost use Rattle.space.specs.Reach.{Reached};

use crate::levels::{Flow, gather};
use network::{Distances, Measure, Pipe};
use verdict::Kind;

// The highest level: one past the interval, or its low end where it has no high end.
fn top_of(distances: Distances) -> u16
    requires { cap distances.from distances.upto ≤ 128 }
    ensures { result ≡ cap distances.from distances.upto }
{
    distances.upto.map_or(distances.from, |high| high + 1) as u16
}

// How many levels are worked through.
fn height_of(distances: Distances) -> u16
    requires { cap distances.from distances.upto ≤ 128 }
    ensures { result ≡ tall distances.from distances.upto }
{
    distances.upto.unwrap_or(distances.from) as u16 + 1
}

// Fills the work with levels. At each place, the join of those in the interval is the least verdict at or above, for each
// route from it whose distance lies in the interval, the meet of the goal at its last place with `through` at every
// earlier one.
pub fn fill_levels<K: Kind, M: Measure>(
    work: &mut [K],
    through: &[K],
    goal: &[K],
    pipes: &[Pipe],
    step: u32,
    distances: Distances,
)
    requires joined { Joined (length through.now) pipes.now }
    requires goal { length goal.now ≡ length through.now }
    requires work { 129 * length through.now ≤ length work.old }
    requires near { cap distances.from distances.upto ≤ 128 }
    ensures value { (p : ℕ) → p < length through.now → gathered K.Kind.ops (length through.now) work.new distances.from distances.upto p ≡ reached K.Kind.ops M.Measure.extend step pipes.now through.now goal.now distances.from distances.upto p }
    ensures least { (p : ℕ) → p < length through.now → Reached K.Kind.ops M.Measure.extend step pipes.now through.now goal.now distances.from distances.upto p (gathered K.Kind.ops (length through.now) work.new distances.from distances.upto p) }
{
    let top = top_of(distances);
    let flow = Flow {
        through,
        pipes,
        step,
        top,
    };
    let levels = &mut work[..(top as usize + 1) * goal.len()];
    flow.fill::<M>(levels, goal, height_of(distances));
}

// The join of the levels in the interval, at a place.
pub fn level_verdict<K: Kind>(work: &[K], places: usize, distances: Distances, place: usize) -> K
    requires place { place < places }
    requires work { 129 * places ≤ length work.now }
    requires near { cap distances.from distances.upto ≤ 128 }
    requires interval { distances.from ≤ 128 }
    ensures { result ≡ gathered K.Kind.ops places work.now distances.from distances.upto place }
{
    let low = distances.from as u16;
    gather(work, places, low, height_of(distances), place)
}
