// The flash: one byte programmed, one sector erased, each counted by a meter; and the search for a byte that is not FF.
// program and erase are the only two functions that write an image.
#![tactic(auto)]

ghost use Rattle.std.specs.Prelude.{◌≡◌, [], ◌∷◌, map, ◌+◌, ◌<◌, ◌≤◌, length};
ghost use Rattle.spec.specs.Step.{Step, bytes_at};
ghost use Rattle.spec.specs.Geometry.{sectors};
ghost use Rattle.spec.specs.Basics.{blank};
ghost use Rattle.laws.specs.Length.{InRange};
ghost use Rattle.flash.specs.Did.{Did};
ghost use Rattle.flash.specs.Words.{ByLines, ByWords, RunOf, Tells};
ghost use Rattle.flash.specs.Meters.{CanCount, AskedMost};

use spec::SECTOR;

// The steps that a call may do, and those that it has asked for so far. A step past the allowance is counted and not done.
#[derive(Clone, Copy)]
pub struct Meter {
    pub allowance: usize,
    pub asked: usize,
}

impl Meter {
    // One more step is asked for.
    fn counted(self) -> Meter
        requires { CanCount self 1 }
        ensures { (result.asked ≡ self.asked + 1) × (result.allowance ≡ self.allowance) }
    {
        Meter {
            asked: self.asked + 1,
            ..self
        }
    }
}

// Programs one byte.
pub fn program(image: &mut [u8], at: usize, byte: u8, m: Meter) -> Meter
    requires { (at < length image.old) × CanCount m 1 }
    ensures { Did image.old m (Step.program at byte ∷ []) image.new result }
{
    if m.asked < m.allowance {
        image[at] = byte;
    }
    m.counted()
}

// 00 at this address, by way of another byte: two steps, each of which a cut inside the byte must leave readable.
pub fn clear_by(image: &mut [u8], at: usize, by: u8, m: Meter) -> Meter
    requires { (at < length image.old) × CanCount m 2 }
    ensures { Did image.old m (Step.program at by ∷ Step.program at 0 ∷ []) image.new result }
{
    let a = program(image, at, by, m);
    program(image, at, 0x00, a)
}

// Erases the sector at this address.
pub fn erase(image: &mut [u8], at: usize, m: Meter) -> Meter
    requires { (at + 4096 ≤ length image.old) × CanCount m 1 }
    ensures { Did image.old m (Step.erase at ∷ []) image.new result }
{
    if m.asked < m.allowance {
        image[at..at + SECTOR].fill(0xFF);
    }
    m.counted()
}

// Programs these bytes one after another, from this address on.
pub fn program_bytes(image: &mut [u8], at: usize, bytes: &[u8], m: Meter) -> Meter
    requires { (at + length bytes.now ≤ length image.old) × CanCount m (length bytes.now) }
    ensures { Did image.old m (bytes_at at bytes.now) image.new result }
{
    let mut q = m;
    for (i, &byte) in bytes.iter().enumerate() {
        q = program(image, at + i, byte, q);
    }
    q
}

// Erases the sectors from the one at `from` on, ascending, as far as they end at `to` at most.
pub fn erase_sectors(image: &mut [u8], from: usize, to: usize, m: Meter) -> Meter
    requires { InRange from × (to ≤ length image.old) × InRange to × CanCount m to }
    ensures { Did image.old m (map Step.erase (sectors from to)) image.new result × AskedMost m result to }
{
    let mut q = m;
    for a in (from..to.saturating_sub(SECTOR - 1)).step_by(SECTOR) {
        q = erase(image, a, q);
    }
    q
}

// The eight bytes from i on, as one number: the compiler makes one load of them.
fn word_at(part: &[u8], i: usize) -> u64
    requires { i + 8 ≤ length part.now }
    ensures { Tells part.now i 8 result }
{
    u64::from_le_bytes(part[i..i + 8].try_into().unwrap())
}

// Two words, four and eight: a bit is set only if it is set in each, so that one compare tests them all. No loop and no fold: each turn
// would count.
fn two_words(part: &[u8], i: usize) -> u64
    requires { i + 16 ≤ length part.now }
    ensures { Tells part.now i 16 result }
{
    word_at(part, i) & word_at(part, i + 8)
}

fn four_words(part: &[u8], i: usize) -> u64
    requires { i + 32 ≤ length part.now }
    ensures { Tells part.now i 32 result }
{
    two_words(part, i) & two_words(part, i + 16)
}

fn eight_words(part: &[u8], i: usize) -> u64
    requires { i + 64 ≤ length part.now }
    ensures { Tells part.now i 64 result }
{
    four_words(part, i) & four_words(part, i + 32)
}

// How far a part is FF: the place of its first byte that is not FF, or its length; and the turns of the loops that looked for it.
// The three loops count their turns by hand, since RunOf says how many they are; no other loop takes part.
#[derive(Clone, Copy)]
pub struct BlankRun {
    pub place: usize,
    pub turns: usize,
}

// Eight words at a time, as long as all of them are FF.
fn blank_lines(part: &[u8]) -> BlankRun
    ensures { ByLines part.now result }
{
    let mut at = 0;
    let mut lines = 0;
    while 64 <= part.len() - at {
        lines += 1;
        if eight_words(part, at) == u64::MAX {
            at += 64;
        } else {
            return BlankRun {
                place: at,
                turns: lines,
            };
        }
    }
    BlankRun {
        place: at,
        turns: lines,
    }
}

// One word at a time, from where that ended.
fn blank_words(part: &[u8], from: BlankRun) -> BlankRun
    requires { ByLines part.now from }
    ensures { ByWords part.now result }
{
    let mut at = from.place;
    let mut words = from.turns;
    while 8 <= part.len() - at {
        words += 1;
        if word_at(part, at) == u64::MAX {
            at += 8;
        } else {
            return BlankRun {
                place: at,
                turns: words,
            };
        }
    }
    BlankRun {
        place: at,
        turns: words,
    }
}

// Byte by byte, from where that ended.
fn blank_bytes(part: &[u8], from: BlankRun) -> BlankRun
    requires { ByWords part.now from }
    ensures { RunOf part.now result }
{
    let mut at = from.place;
    let mut turns = from.turns;
    while at < part.len() {
        turns += 1;
        if part[at] != 0xFF {
            return BlankRun { place: at, turns };
        }
        at += 1;
    }
    BlankRun { place: at, turns }
}

// The place of the first byte that is not FF, or the part's length; every test for FF goes through here.
pub fn first_written(part: &[u8]) -> BlankRun
    ensures { RunOf part.now result }
{
    blank_bytes(part, blank_words(part, blank_lines(part)))
}

// Whether every byte is FF.
pub fn is_blank(part: &[u8]) -> bool
    ensures { result ≡ blank part.now }
{
    first_written(part).place == part.len()
}
