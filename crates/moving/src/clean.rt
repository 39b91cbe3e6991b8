// Step (c) of a move: X's data is cleaned of what could be taken for a head or a record.
ghost use Rattle.std.specs.Prelude.{◌≡◌, ◌||◌, ◌+◌, ◌≤◌, ◌<◌, length, take, drop};
ghost use Rattle.spec.specs.Bytes.{is_start, is_clean, is_record};
ghost use Rattle.spec.specs.Move.{mark_steps, clean_steps};
ghost use Rattle.laws.specs.Length.{InRange};
ghost use Rattle.flash.specs.Did.{Did};
ghost use Rattle.flash.specs.Meters.{CanCount, AskedMost};
ghost use Rattle.chain.specs.Rest.{entry_of};
ghost use Rattle.chain.specs.Fold.{Whole};
ghost use Rattle.moving.specs.Clean.{is_mark, cleaned_steps};

use chain::Spot;
use flash::{Meter, program};
use record::bytes::{is_clean, is_record};
use record::up_8;
use spec::{HIGH, START};

// The first byte of a head's magic, or of a record's.
fn is_low(b: u8) -> bool
    ensures { result ≡ (is_start b || is_clean b || is_record b) }
{
    b == START || is_clean(b) || is_record(b)
}

// Two bytes that could be taken for a head's magic, or for a record's.
pub fn is_mark(b: u8, c: u8) -> bool
    ensures { result ≡ is_mark b c }
{
    is_low(b) && c == HIGH
}

// The pair at this address, if it is such a one, gets 00 as its second byte.
fn clean_pair(image: &mut [u8], at: usize, m: Meter) -> Meter
    requires at_in_bounds { at + 1 < length image.old }
    requires can_count { CanCount m 1 }
    ensures fact { let s = image.old in Did s m (mark_steps at (drop at s)) image.new result }
    ensures asked_most { AskedMost m result 1 }
{
    if is_mark(image[at], image[at + 1]) {
        return program(image, at + 1, 0x00, m);
    }
    m
}

// The pairs at the 8-byte boundaries of the d bytes from `at` on.
fn clean_bytes(image: &mut [u8], at: usize, d: usize, m: Meter) -> Meter
    requires d_in_bounds { at + d ≤ length image.old }
    requires in_range { InRange (length image.old) }
    requires can_count { CanCount m d }
    ensures fact { let s = image.old in Did s m (clean_steps d at (take d (drop at s))) image.new result }
    ensures asked_most { AskedMost m result d }
{
    let mut q = m;
    for i in (0..d.saturating_sub(1)).step_by(8) {
        q = clean_pair(image, at + i, q);
    }
    q
}

// (c) X's data is cleaned.
pub fn clean_data(image: &mut [u8], x: Spot, m: Meter) -> Meter
    requires whole { Whole image.old x }
    requires in_range { InRange (length image.old) }
    requires can_count { CanCount m x.d }
    ensures fact { let s = image.old in Did s m (cleaned_steps (entry_of s x)) image.new result }
    ensures asked_most { AskedMost m result x.d }
{
    clean_bytes(image, x.at + 8 + up_8(x.n + 1), x.d, m)
}
