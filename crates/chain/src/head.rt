// The head: the walk over the records from 0, and the search over the 8-byte boundaries from where it ends.
ghost use Rattle.std.specs.Prelude.{◌≡◌, ◌||◌, ◌&&◌, ◌+◌, ◌-◌, ◌≤◌, ◌<◌, suc, max, length, drop, get_or, eqb};
ghost use Rattle.spec.specs.Bytes.{is_record, is_high};
ghost use Rattle.spec.specs.Record.{low_of, high_of, start_here, clean_here};
ghost use Rattle.spec.specs.Head.{torn_here, walked_here, walk_next, walk, sought, chosen, head};
ghost use Rattle.laws.specs.Length.{InRange, Addable};
ghost use Rattle.record.specs.Within.{Within};
ghost use Rattle.chain.specs.HeadLaws.{headed, HeadInside, Walked};
ghost use Rattle.chain.specs.HeadSkip.{Skips, BlankThere};

use crate::plain::plain_of;
use crate::{Sighting, Stretch};
use record::bytes::{is_clean, is_record, is_torn};
use record::up_8;
use spec::{HIGH, Next, Refusal, START, Status, WRAP};

// The byte i past at, or 0 past the end.
pub fn byte(image: &[u8], at: usize, i: usize) -> u8
    requires { Addable at × (i < 8) }
    ensures { result ≡ get_or (drop at image.now) i 0 }
{
    let a = at + i;
    if a < image.len() {
        return image[a];
    }
    0
}

// The magic with this low byte at this address.
fn magic(image: &[u8], at: usize, low: u8) -> bool
    requires { Addable at }
    ensures { result ≡ (eqb (low_of (drop at image.now)) low && eqb (high_of (drop at image.now)) 0x5A) }
{
    byte(image, at, 0) == low && byte(image, at, 1) == HIGH
}

// The magic of a record at this address, with any first byte that counts as A5.
fn record_magic(image: &[u8], at: usize) -> bool
    requires { Addable at }
    ensures { result ≡ (is_record (low_of (drop at image.now)) && is_high (high_of (drop at image.now))) }
{
    is_record(byte(image, at, 0)) && byte(image, at, 1) == HIGH
}

// CLEAN at this address, with any first byte that counts as A0.
fn clean_magic(image: &[u8], at: usize) -> bool
    requires { Addable at }
    ensures { result ≡ clean_here (drop at image.now) }
{
    is_clean(byte(image, at, 0)) && byte(image, at, 1) == HIGH
}

fn torn_here(image: &[u8], at: usize) -> bool
    requires { Addable at }
    ensures { result ≡ torn_here (drop at image.now) }
{
    byte(image, at, 2) == Status::ERASED.byte && is_torn(byte(image, at, 0), byte(image, at, 1))
}

// Whether the walk goes on with a record here: 5AA5, and at 0 CLEAN too.
fn walked_here(image: &[u8], at: usize) -> bool
    requires { Addable at }
    ensures { result ≡ walked_here at (drop at image.now) }
{
    if byte(image, at, 2) == Status::ERASED.byte {
        return false;
    }
    record_magic(image, at) || at == 0 && clean_magic(image, at)
}

fn walk_next(image: &[u8], at: usize) -> Next
    requires { (at ≤ length image.now) × InRange (length image.now) }
    ensures { (result ≡ walk_next at (drop at image.now)) × Within result (length image.now - at) }
{
    if walked_here(image, at) {
        return record::record_of(&image[at..], byte(image, at, 2) == Status::RESERVED.byte);
    }
    Next::Bad
}

// Past the plain records from here on.
fn walk_plain(image: &[u8], from: usize) -> usize
    requires { Walked image.now from × InRange (length image.now) }
    ensures { Walked image.now result × (from ≤ result) }
{
    let mut at = from;
    while let Next::Record { n, d } = plain_of(&image[at..]) {
        at += record::size(n, d);
    }
    at
}

// Where the search begins.
fn walk(image: &[u8]) -> usize
    requires { InRange (length image.now) }
    ensures { (result ≡ walk (suc (length image.now)) 0 image.now)
        × (result ≤ length image.now + 8) }
{
    let mut at = 0;
    loop {
        at = walk_plain(image, at);
        if torn_here(image, at) {
            return at + 8;
        }
        let Next::Record { n, d } = walk_next(image, at) else {
            return at;
        };
        at += record::size(n, d);
    }
}

fn mark_here(image: &[u8], at: usize) -> bool
    requires { Addable at }
    ensures { result ≡ (start_here (drop at image.now) || clean_here (drop at image.now)) }
{
    magic(image, at, START) || clean_magic(image, at)
}

// The run of FF from this address on, all of it.
fn blank_from(image: &[u8], at: usize) -> Stretch
    requires { InRange (length image.now) × (at ≤ length image.now + 8) }
    ensures { BlankThere image.now result × (result.from ≡ at) × (result.to ≤ max at (length image.now)) }
{
    if at < image.len() {
        let run = flash::first_written(&image[at..]);
        return Stretch {
            from: at,
            to: at + run.place,
        };
    }
    Stretch { from: at, to: at }
}

// The next boundary that may be a START or CLEAN: neither begins with FF. Where the byte at hand is not FF, no run is looked for.
fn past_blank(image: &[u8], at: usize) -> usize
    requires { InRange (length image.now) × (at < length image.now) }
    ensures { Skips image.now at result }
{
    if image[at] == 0xFF {
        let run = blank_from(image, at);
        return at + up_8(run.to - at);
    }
    at + 8
}

// The first START or CLEAN on an 8-byte boundary; with none, an address past the end.
fn search(image: &[u8], from: usize) -> usize
    requires { InRange (length image.now) × (from ≤ length image.now + 8) }
    ensures { (result ≡ sought image.now from) × (result ≤ length image.now + 8) }
{
    let mut at = from;
    // document 01 names this form: the loop is left by break, with the address
    let found = loop {
        if mark_here(image, at) {
            break at;
        }
        if image.len() <= at {
            break at;
        }
        at = past_blank(image, at);
    };
    found
}

// What the place a that the search yields says of the head.
fn chosen(image: &[u8], a: usize) -> Result<usize, Refusal>
    requires a_in_bounds { a ≤ length image.now + 8 }
    requires in_range { InRange (length image.now) }
    ensures { (headed result ≡ chosen image.now a) × HeadInside image.now result }
{
    if magic(image, a, START) {
        return Ok(a);
    }
    if clean_magic(image, a) {
        if clean_magic(image, 0) {
            return Err(Refusal::Broken);
        }
        return Ok(a);
    }
    if clean_magic(image, 0) {
        return Ok(0);
    }
    Err(Refusal::Headless)
}

// This head, with no run of FF.
fn seen(image: &[u8], head: Result<usize, Refusal>) -> Sighting
    requires { InRange (length image.now) }
    ensures { (result.head ≡ head) × BlankThere image.now result.blank }
{
    Sighting {
        head,
        blank: Stretch {
            from: image.len(),
            to: image.len(),
        },
    }
}

// The head of the chain, with the run of FF at which the walk ended.
pub fn head(image: &[u8]) -> Sighting
    requires { InRange (length image.now) }
    ensures { (headed result.head ≡ head image.now) × HeadInside image.now result.head
        × BlankThere image.now result.blank }
{
    if magic(image, 0, START) {
        return seen(image, Ok(0));
    }
    if magic(image, 0, WRAP) {
        return seen(image, Err(Refusal::Broken));
    }
    let from = walk(image);
    let run = blank_from(image, from);
    let found = search(image, from + up_8(run.to - from));
    Sighting {
        head: chosen(image, found),
        blank: run,
    }
}
