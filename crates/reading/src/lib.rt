// Reading an image: what the chain tells as a whole, whether it breaks a rule, whether it is settled. Everything here only looks.
#![tactic(auto)]

mod gather;
pub mod image;
mod marks;
pub mod rules;
mod sought;

use chain::{Cursor, Pass, Repeats, Spot, Tally};
use spec::{Ending, Place};

// Where a file was found; seen is 0 where none was. A loop carries this and not an Option<Spot>, which misses the bar of speed: the
// compiler copies an enum, and the bytes beside a bool, at each turn.
#[derive(Clone, Copy)]
pub struct Sight {
    pub seen: usize,
    pub spot: Spot,
}

// What is gathered at a cursor: the tally of the records before it, what their names tell, and the first file of the hash that is wanted.
#[derive(Clone, Copy)]
pub struct Gathered {
    pub cursor: Cursor,
    pub tally: Tally,
    pub repeats: Repeats,
    pub sight: Sight,
}

// The same of a whole chain, and how the chain ends.
#[derive(Clone, Copy)]
pub struct FullPass {
    pub pass: Pass,
    pub repeats: Repeats,
    pub found: Option<Spot>,
}

// All that the calls go by: head, tail and turn; how the chain ends; the tally.
#[derive(Clone, Copy)]
pub struct Survey {
    pub place: Place,
    pub ending: Ending,
    pub tally: Tally,
}

// That, and what the names tell: what a judgement goes by.
#[derive(Clone, Copy)]
pub struct Overview {
    pub survey: Survey,
    pub repeats: Repeats,
    pub found: Option<Spot>,
}

// What a legal image reads as, whether mount has no step to do, and the first file of the hash that is wanted.
#[derive(Clone, Copy)]
pub struct Judged {
    pub survey: Survey,
    pub settled: bool,
    pub found: Option<Spot>,
}

// What a settled image reads as, and the file of the name that was asked for.
#[derive(Clone, Copy)]
pub struct NamedSurvey {
    pub survey: Survey,
    pub file: Option<Spot>,
}
