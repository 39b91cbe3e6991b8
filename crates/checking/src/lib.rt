// The check of an image (document 02, K13): the first broken rule with its address, or settled, or the repair that comes first.
// Everything here only looks. A good image is read once; only one that is refused is gone over again for the rule that it breaks.
#![tactic(auto)]

pub mod answer;
mod called;
pub mod check;
mod dirt;
mod records;
mod stop;
mod verdict;

ghost use Rattle.std.specs.Prelude.{◌≡◌, ◌+◌, ◌<◌, length, take, drop};
ghost use Rattle.checking.specs.Repairs.{repair_number};

// The record at which the chain breaks off, if its header and its name are good: where it stands, and how long its name is.
#[derive(Clone, Copy)]
pub struct CutOff {
    pub at: usize,
    pub n: usize,
}

impl CutOff {
    fn name(self, image: &[u8]) -> &[u8]
        requires { self.at + (8 + self.n) < length image.now }
        ensures { result.now ≡ take self.n (drop 8 (drop self.at image.now)) }
    {
        let from = self.at + 8;
        &image[from..from + self.n]
    }
}

// 01's four repairs, in its order: the free run behind a CLEAN head, a move that was cut, an unfinished last thing, an F8 file that an FC
// one supersedes.
#[derive(Clone, Copy)]
pub enum Repair {
    FreeRun,
    Move,
    LastThing,
    Superseded,
}

impl Repair {
    // 01's number.
    fn number(self) -> u32
        ensures { result ≡ repair_number self }
    {
        match self {
            Repair::FreeRun => 1,
            Repair::Move => 2,
            Repair::LastThing => 3,
            Repair::Superseded => 4,
        }
    }
}

// The answer as numbers, as C gets it: 0 or 22; 0 settled, 1 recovery, 2 broken; the repair's number or the rule's; the address.
#[derive(Clone, Copy)]
pub struct Told {
    pub answer: u32,
    pub verdict: u32,
    pub number: u32,
    pub address: usize,
}
