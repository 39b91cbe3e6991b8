// One entry of a bus trace: whether it can be carried out, and its one flash step.
ghost use Rattle.std.specs.Prelude.{◌≡◌, true, false, ◌<◌, length};
ghost use Rattle.spec.specs.Step.{apply};
ghost use Rattle.spec.specs.Geometry.{good_length};
ghost use Rattle.spec.specs.Bytes.{clears};
ghost use Rattle.spec.specs.Planner.{step_of};
ghost use Rattle.spec.specs.Trace.{out_of_range, fault};
ghost use Rattle.replay.specs.Entry.{carried, entry_at};
ghost use Rattle.replay.specs.Told.{checked_told};

use crate::Stop;
use flash::{Meter, erase, program};
use spec::SECTOR;

// The kinds of K1. C hands in any number.
const PROGRAM: u32 = 1;

const ERASE: u32 = 2;

// What the three slices hold at one position.
#[derive(Clone, Copy)]
pub struct Entry {
    pub kind: u32,
    pub address: usize,
    pub byte: u32,
}

// Whether the byte has no bit set that is clear in the one found.
#[tactic(auto, unfolding(spec::specs::Bytes::clears))]
fn only_clears(found: u8, byte: u32) -> bool
    ensures { result ≡ clears found byte }
{
    byte & u32::from(found) == byte
}

impl Entry {
    // The trace's entry i.
    pub fn at(kinds: &[u32], addresses: &[u32], bytes: &[u32], i: usize) -> Entry
        requires { (i < length kinds.now) × (i < length addresses.now) × (i < length bytes.now) }
        ensures { result ≡ entry_at kinds.now addresses.now bytes.now i }
    {
        Entry {
            kind: kinds[i],
            address: addresses[i] as usize,
            byte: bytes[i],
        }
    }

    // Whether it lies outside an image of n bytes: by its address, a sector that is erased from inside, or a byte above 255.
    #[tactic(auto, unfolding(spec::specs::Trace::out_of_range))]
    fn out_of_range(self, n: usize) -> bool
        ensures { result ≡ out_of_range n self.kind self.address self.byte }
    {
        n <= self.address
            || self.kind == ERASE && self.address % SECTOR != 0
            || self.kind == PROGRAM && 255 < self.byte
    }

    // Which of the three stops a replay here, if one does.
    fn check(self, image: &[u8]) -> Result<(), Stop>
        ensures { checked_told result ≡ fault image.now self.kind self.address self.byte }
    {
        if self.out_of_range(image.len()) {
            return Err(Stop::OutOfRange);
        }
        match self.kind {
            ERASE => Ok(()),
            PROGRAM if only_clears(image[self.address], self.byte) => Ok(()),
            PROGRAM => Err(Stop::BitSet),
            _ => Err(Stop::UnknownKind),
        }
    }

    // Carries it out where it can be.
    fn carry(self, image: &mut [u8])
        requires { (good_length (length image.old) ≡ true) × (fault image.old self.kind self.address self.byte ≡ 0) }
        ensures { image.new ≡ apply image.old (step_of self.kind self.address self.byte) }
    {
        let m = Meter {
            allowance: 1,
            asked: 0,
        };
        if self.kind == ERASE {
            erase(image, self.address, m);
        } else {
            program(image, self.address, self.byte as u8, m);
        }
    }

    // Carries it out, if it can be; or says which of the three it is.
    pub fn carry_out(self, image: &mut [u8]) -> Result<(), Stop>
        requires { good_length (length image.old) ≡ true }
        ensures { (checked_told result ≡ fault image.old self.kind self.address self.byte)
            × (image.new ≡ carried image.old self.kind self.address self.byte) }
    {
        self.check(image)?;
        self.carry(image);
        Ok(())
    }

    // Whether it may change the image: to program what stands there already does not.
    pub fn changes(self, image: &[u8]) -> bool
        ensures { result ≡ false → carried image.now self.kind self.address self.byte ≡ image.now }
    {
        self.kind != PROGRAM
            || image.len() <= self.address
            || u32::from(image[self.address]) != self.byte
    }
}
