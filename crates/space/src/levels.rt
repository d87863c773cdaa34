// Levels of distance: one row of verdicts, a verdict for each place, for each level.
ghost use Rattle.std.specs.Prelude.{◌≡◌, ℕ, ◌+◌, ◌-◌, ◌*◌, ◌<◌, ◌≤◌, length};
ghost use Rattle.network.specs.Routes.{Ends, Joined, stands};
ghost use Rattle.space.specs.Levels.{at, begun, lifted, pushed, climbed, joined};

use network::{Measure, Pipe};
use verdict::Kind;

// Whether the pipe stands at the step.
fn standing(pipe: &Pipe, step: u32) -> bool
    ensures { result ≡ stands step pipe.now }
{
    (pipe.first..=pipe.last).contains(&step)
}

// The verdict on a level at a place.
fn read<K: Kind>(levels: &[K], places: usize, level: usize, place: usize) -> K
    requires { level * places + place < length levels.now }
    ensures { result ≡ at K.Kind.ops places levels.now level place }
{
    levels[level * places + place]
}

// Level 0 is the goal, the others are bottom.
fn begin<K: Kind>(levels: &mut [K], goal: &[K], top: u16)
    requires { length levels.old ≡ (top + 1) * length goal.now }
    ensures { levels.new ≡ begun K.Kind.ops goal.now top }
{
    let bottom = K::bottom();
    let (first, others) = levels.split_at_mut(goal.len());
    first.copy_from_slice(goal);
    // Not `fill`, which clones: a kind does not promise that a clone never fails.
    others.fill_with(|| bottom);
}

// The join of the levels from `low` to below `height`, at a place.
pub(crate) fn gather<K: Kind>(levels: &[K], places: usize, low: u16, height: u16, place: usize) -> K
    requires place { place < places }
    requires room { height * places ≤ length levels.now }
    ensures { result ≡ joined K.Kind.ops places levels.now low (height - low) place }
{
    let mut verdict = K::bottom();
    for level in low..height {
        verdict = verdict.join(read(levels, places, level as usize, place));
    }
    verdict
}

// What levels are worked through with: the verdicts on the way, the pipes, the step at which they stand, and the highest level.
#[derive(Drop)]
pub(crate) struct Flow<'a, K> {
    pub(crate) through: &'a [K],
    pub(crate) pipes: &'a [Pipe],
    pub(crate) step: u32,
    pub(crate) top: u16,
    ghost joined: { Joined (length through.now) pipes.now },
}

impl<K: Kind> Flow<'_, K> {
    // The pipe's near end, on the level `high`, joins what its far end has on the level `low`.
    fn lift(&self, levels: &mut [K], pipe: &Pipe, low: usize, high: usize)
        requires ends { Ends (length self.now.through.now) pipe.now }
        requires near { high * length self.now.through.now + pipe.now.from < length levels.old }
        requires far { low * length self.now.through.now + pipe.now.to < length levels.old }
        ensures { levels.new ≡ lifted K.Kind.ops self.now.through.now low high levels.old pipe.now }
    {
        let near = high * self.through.len() + pipe.from as usize;
        let far = low * self.through.len() + pipe.to as usize;
        let gain = self.through[pipe.from as usize].meet(levels[far]);
        levels[near] = levels[near].join(gain);
    }

    // A pipe that stands lifts from a level to the one that it extends it to.
    fn push<M: Measure>(&self, levels: &mut [K], pipe: &Pipe, level: u16)
        requires ends { Ends (length self.now.through.now) pipe.now }
        requires room { (self.now.top + 1) * length self.now.through.now ≤ length levels.old }
        requires level { level ≤ self.now.top }
        ensures { levels.new ≡ pushed K.Kind.ops self.now.through.now M.Measure.extend self.now.step self.now.top level levels.old pipe.now }
    {
        if standing(pipe, self.step) {
            let high = M::extended(level, pipe).min(self.top);
            self.lift(levels, pipe, level as usize, high as usize);
        }
    }

    // The levels below `height`, from the goal on level 0 up.
    pub(crate) fn fill<M: Measure>(&self, levels: &mut [K], goal: &[K], height: u16)
        requires goal { length goal.now ≡ length self.now.through.now }
        requires long { length levels.old ≡ (self.now.top + 1) * length goal.now }
        requires height { height ≤ self.now.top + 1 }
        ensures { levels.new ≡ climbed K.Kind.ops self.now.through.now M.Measure.extend self.now.step self.now.top self.now.pipes.now height (begun K.Kind.ops goal.now self.now.top) }
    {
        begin(levels, goal, self.top);
        for level in 0..height {
            // A level settles after as many passes as there are places; one more hands on what has settled.
            for _ in 0..=self.through.len() {
                for pipe in self.pipes {
                    self.push::<M>(levels, pipe, level);
                }
            }
        }
    }
}
