// The sweep: up to five moves, each reading the image that the one before it left, from the head it left.
#![tactic(auto)]

pub mod one_move;
pub mod sweep;

use flash::Meter;
use spec::Place;

// What the next move does with the head's record: there is no further move, for want of room or not; the record is
// dead and stays behind; or it is copied, with its n name bytes and d data bytes. Stop is one case with a flag: a sweep asks only whether
// it stops, and `no_room` alone asks why.
#[derive(Clone, Copy)]
pub enum Plan {
    Stop { full: bool },
    Leave,
    Copy { n: usize, d: usize },
}

// How a move ended: there was none, it was cut, or it was finished and left this place.
#[derive(Clone, Copy)]
pub enum MoveEnd {
    Stuck,
    Cut { meter: Meter },
    Done { place: Place, meter: Meter },
}

// The finished moves of a sweep, and its meter.
#[derive(Clone, Copy)]
pub struct Swept {
    pub moves: usize,
    pub meter: Meter,
}
