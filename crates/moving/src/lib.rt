// Move of head X, next record Y: its six steps (a) to (f), a function for each.
// A sweep does them all; mount does (c) to (f) of a move that was cut.
#![tactic(auto)]

pub mod clean;
pub mod copy;

ghost use Rattle.std.specs.Prelude.{◌≡◌, [], ◌∷◌, ◌+◌, ◌*◌, ◌≤◌, ◌<◌, length};
ghost use Rattle.spec.specs.Move.{to_clean_step, vacated_steps, start_steps, forget_steps, close_steps};
ghost use Rattle.laws.specs.Length.{InRange};
ghost use Rattle.flash.specs.Did.{Did};
ghost use Rattle.flash.specs.Meters.{CanCount, AskedMost};
ghost use Rattle.chain.specs.Rest.{entry_of};
ghost use Rattle.chain.specs.Fold.{Whole};
ghost use Rattle.moving.specs.Close.{left_end, left_behind};

use chain::Spot;
use clean::clean_data;
use flash::{Meter, clear_by, erase_sectors, program};
use spec::{CLEAN, SECTOR, START, floor};

// The head that a move or a repair leaves, and the meter.
#[derive(Clone, Copy)]
pub struct NewHead {
    pub head: usize,
    pub meter: Meter,
}

// (b) Y becomes CLEAN.
pub fn to_clean(image: &mut [u8], y: Spot, m: Meter) -> Meter
    requires whole { Whole image.old y }
    requires can_count { CanCount m 1 }
    ensures { let s = image.old in Did s m (to_clean_step (entry_of s y) ∷ []) image.new result }
{
    program(image, y.at, CLEAN, m)
}

// Where the sectors that X leaves end, in an image of length n with Y at this address: before Y's sector, or at n if Y is at 0
// after a turn.
pub fn vacated_end(n: usize, at: usize) -> usize
    requires { at ≤ n }
    ensures { (result ≡ left_end n at) × (result ≤ n) }
{
    if at == 0 {
        return n;
    }
    floor(at)
}

// (d) The sectors from X's to the one before Y's are erased.
fn vacate(image: &mut [u8], x: Spot, y: Spot, m: Meter) -> Meter
    requires whole { Whole image.old x × Whole image.old y }
    requires in_range { InRange (length image.old) }
    requires can_count { CanCount m (length image.old) }
    ensures fact { let s = image.old in Did s m (vacated_steps (left_behind s x y)) image.new result }
    ensures asked_most { AskedMost m result (length image.old) }
{
    let to = vacated_end(image.len(), y.at);
    erase_sectors(image, floor(x.at), to, m)
}

// (e) A CLEAN record becomes START: from A0 by way of 80, which is CLEAN too, so that nothing else can stand there if a step
// is cut inside; from 80 at once.
pub fn to_start(image: &mut [u8], at: usize, low: u8, m: Meter) -> Meter
    requires at_in_bounds { at < length image.old }
    requires can_count { CanCount m 2 }
    ensures did { Did image.old m (start_steps at low) image.new result }
    ensures asked_most { AskedMost m result 2 }
{
    if low == CLEAN {
        return clear_by(image, at, 0x80, m);
    }
    program(image, at, START, m)
}

// (f) X's second byte goes, if its sector was not erased: a later search must not stop at X.
fn forget(image: &mut [u8], x: Spot, y: Spot, m: Meter) -> Meter
    requires whole { Whole image.old x × Whole image.old y }
    requires can_count { CanCount m 1 }
    ensures fact { let s = image.old in
        Did s m (forget_steps (entry_of s x) (left_behind s x y)) image.new result }
    ensures asked_most { AskedMost m result 1 }
{
    let to = vacated_end(image.len(), y.at);
    if floor(x.at) + SECTOR <= to {
        return m;
    }
    program(image, x.at + 1, 0x00, m)
}

// (c) to (f), with Y's low byte. Y becomes START only after the erases.
pub fn close(image: &mut [u8], x: Spot, y: Spot, low: u8, m: Meter) -> Meter
    requires whole { Whole image.old x × Whole image.old y }
    requires in_range { InRange (length image.old) }
    requires can_count { CanCount m (2 * length image.old + 3) }
    ensures fact { let s = image.old in
        Did s m (close_steps (length s) (entry_of s x) (entry_of s y) low) image.new result }
    ensures asked_most { AskedMost m result (2 * length image.old + 3) }
{
    let a = clean_data(image, x, m);
    let b = vacate(image, x, y, a);
    let c = to_start(image, y.at, low, b);
    forget(image, x, y, c)
}
