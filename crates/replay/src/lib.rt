// A bus trace (document 02, K7), three slices of numbers as the planner hands them out, replayed over an image.
// Every store into the image is one of flash::program and flash::erase.
#![tactic(auto)]

mod entry;
pub mod watch;

ghost use Rattle.std.specs.Prelude.{◌≡◌, true, IfErr};
ghost use Rattle.spec.specs.Trace.{replay_on, replayable, replay_trace, replayed};
ghost use Rattle.window.specs.Handed.{slices};
ghost use Rattle.replay.specs.Told.{stop_number, stop_told, told};

use door::good_length;
use entry::Entry;
use spec::Refusal;

// What stops a replay: an entry that is out of range, of unknown kind, or programs a bit from 0 to 1.
#[derive(Clone, Copy)]
pub enum Stop {
    OutOfRange,
    UnknownKind,
    BitSet,
}

impl Stop {
    // K7's number.
    pub fn number(self) -> u32
        ensures { result ≡ stop_number self }
    {
        match self {
            Stop::OutOfRange => 1,
            Stop::UnknownKind => 2,
            Stop::BitSet => 3,
        }
    }
}

// How far a replay went: where it stopped, and what stopped it; or the count of all entries.
#[derive(Clone, Copy)]
pub struct Replayed {
    pub position: usize,
    pub stop: Option<Stop>,
}

impl Replayed {
    // The number of what stopped it, or 0.
    pub fn stop_number(self) -> u32
        ensures { result ≡ stop_told self.stop }
    {
        self.stop.map_or(0, |stop| stop.number())
    }
}

// The first image of a replay that mount would refuse: whether there is one; the count of entries before it, or of all up to the stop. No
// Option, for K7 gives a count in both cases.
#[derive(Clone, Copy)]
pub struct Refusing {
    pub there: bool,
    pub count: usize,
}

// Whether the image's length is good and the three slices are of one length.
#[tactic(auto, unfolding(spec::specs::Trace::replayable, spec::specs::Trace::equal_lengths))]
fn replayable(image: &[u8], kinds: &[u32], addresses: &[u32], bytes: &[u32]) -> bool
    ensures { result ≡ replayable image.now (slices kinds.now addresses.now bytes.now) }
{
    good_length(image.len()) && kinds.len() == addresses.len() && addresses.len() == bytes.len()
}

// The entries one after another, up to the first that can't be carried out.
fn replay_entries(image: &mut [u8], kinds: &[u32], addresses: &[u32], bytes: &[u32]) -> Replayed
    requires { replayable image.old (slices kinds.now addresses.now bytes.now) ≡ true }
    ensures { replayed 0 result.position (stop_told result.stop) image.new
        ≡ replay_on 0 image.old kinds.now addresses.now bytes.now }
{
    for i in 0..kinds.len() {
        if let Err(stop) = Entry::at(kinds, addresses, bytes, i).carry_out(image) {
            return Replayed {
                position: i,
                stop: Some(stop),
            };
        }
    }
    Replayed {
        position: kinds.len(),
        stop: None,
    }
}

// Replays a trace over the image; the image is then that after all entries before the stop.
#[tactic(auto, unfolding(spec::specs::Trace::replay_trace))]
pub fn replay_trace(
    image: &mut [u8],
    kinds: &[u32],
    addresses: &[u32],
    bytes: &[u32],
) -> Result<Replayed, Refusal>
    ensures told { told result image.new
        ≡ replay_trace image.old (slices kinds.now addresses.now bytes.now) }
    ensures refused { IfErr result (λ x. x ≡ Refusal.BadLength) }
{
    if replayable(image, kinds, addresses, bytes) {
        return Ok(replay_entries(image, kinds, addresses, bytes));
    }
    Err(Refusal::BadLength)
}
