// What the bytes of the image that a call leaves are good for (02, K3): live, dead, free and lost, counted from the first reading.
// Nothing here writes an image.
#![tactic(auto)]

pub mod counting;
pub mod stride;

use planner::Walk;

// The live bytes of what was read, and where its wrap marker stands; at the image's end there is none.
#[derive(Clone, Copy)]
pub struct Count {
    pub live: usize,
    pub wall: usize,
}

// Where a sweep stands of which only the place is asked, and where its image then has a wrap marker: there, or nowhere if that is its end.
#[derive(Clone, Copy)]
pub struct Course {
    pub walk: Walk,
    pub wall: usize,
}
