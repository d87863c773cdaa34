// Where routes end, by following pipes one at a time.
use crate::book::Spot;
use crate::drawing::Drawing;
use command::MeasureName;
use network::Pipe;
use std::alloc::AllocError;
use std::mem;

// Every distance from 128 on is as far as 128: no limit is above 127.
const FAR: u32 = 128;

// How many distances from 0 to `FAR` there are, and how many pairs of a place and a distance on the largest plan.
const DISTANCES: usize = 129;

const PAIRS: usize = 32 * DISTANCES;

fn further(measure: MeasureName, distance: u32, pipe: &Pipe) -> u32 {
    let more = match measure {
        MeasureName::Hops => distance.saturating_add(1),
        MeasureName::Lengths => distance.saturating_add(pipe.length),
        MeasureName::Drops => distance.max(pipe.drop),
    };
    more.min(FAR)
}

// Marks a pair of a place and a distance, and says whether it is new.
fn mark(marks: &mut [bool], (place, distance): (u32, u32)) -> bool {
    let index = (place as usize)
        .saturating_mul(DISTANCES)
        .saturating_add(distance as usize);
    match marks.get_mut(index) {
        Some(marked) => !mem::replace(marked, true),
        None => false,
    }
}

impl Drawing<'_> {
    // The end and the distance of each route from a spot that leaves none but allowed places, each pair once.
    pub(crate) fn walk<F: Fn(u32) -> bool>(
        &self,
        start: Spot,
        allowed: F,
    ) -> Result<Vec<(u32, u32)>, AllocError>
        requires { F.IsAlwaysCallable allowed }
    {
        let count = (self.book.size.places as usize).saturating_mul(DISTANCES);
        let mut marks = vec![in self.heap; false; count]?;
        let mut found = Vec::new(self.heap);
        if mark(&mut marks, (start.place, 0)) {
            found.push((start.place, 0u32))?;
        }
        // each pair is followed once
        for next in 0..PAIRS {
            let Some((place, distance)) = found.get(next).copied() else {
                break;
            };
            if !allowed(place) {
                continue;
            }
            for pipe in self.book.pipes.as_slice() {
                if pipe.from == place && (pipe.first..=pipe.last).contains(&start.step) {
                    let end = (pipe.to, further(self.measure, distance, pipe));
                    if mark(&mut marks, end) {
                        found.push(end)?;
                    }
                }
            }
        }
        Ok(found)
    }
}
