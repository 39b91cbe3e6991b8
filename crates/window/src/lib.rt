// Steps handed out and not done: one step, runs of bytes and of sectors, each counted by a window.
// Nothing here writes an image; what is written are the three lent slices.
#![tactic(auto)]

pub mod build;
pub mod file;

ghost use Rattle.std.specs.Prelude.{◌≡◌, [], ◌∷◌, map, ◌+◌, ◌-◌, ◌<◌, ◌≤◌, ◌^◌, min, length};
ghost use Rattle.spec.specs.Step.{Step, bytes_at};
ghost use Rattle.spec.specs.Geometry.{sectors};
ghost use Rattle.spec.specs.Planner.{shortest};
ghost use Rattle.window.specs.Handed.{slices, held, shown, HandedOne, Handed, Counts};
ghost use Rattle.window.specs.Windows.{into};

use spec::SECTOR;

// The kinds of a step, as C has them.
pub const PROGRAM: u32 = 1;

pub const ERASE: u32 = 2;

// A window on a list of steps: the first step that is wanted, and the steps that were passed so far, handed out or not.
#[derive(Clone, Copy)]
pub struct Window {
    pub first: usize,
    pub passed: usize,
}

impl Window {
    // How many of the steps passed were handed out, into so many slots.
    pub fn handed(self, slots: usize) -> usize
        ensures { result ≡ min slots (self.passed - self.first) }
    {
        slots.min(self.passed.saturating_sub(self.first))
    }
}

// These bytes programmed one after another, from this address on, each into its slot, from this slot on: there is one for each.
fn fill_slots(
    kinds: &mut [u32],
    addresses: &mut [u32],
    bytes: &mut [u32],
    slot: usize,
    at: usize,
    source: &[u8],
)
    requires room { length source.now ≤ shortest (slices kinds.old addresses.old bytes.old) - slot }
    requires fits { at + length source.now < 2 ^ 32 }
    ensures { slices kinds.new addresses.new bytes.new
        ≡ into slot (bytes_at at source.now) (slices kinds.old addresses.old bytes.old) }
{
    for i in 0..source.len() {
        kinds[slot + i] = PROGRAM;
        addresses[slot + i] = (at + i) as u32;
        bytes[slot + i] = u32::from(source[i]);
    }
}

// What hands out steps: the lent slices, and the window on them.
#[derive(Drop)]
pub struct Emitter<'a> {
    pub kinds: &'a mut [u32],
    pub addresses: &'a mut [u32],
    pub bytes: &'a mut [u32],
    pub first: usize,
    pub passed: usize,
}

impl Emitter<'_> {
    // The length of the shortest slice.
    fn slots(&self) -> usize
        ensures { result ≡ shortest (held self.now) }
    {
        self.kinds
            .len()
            .min(self.addresses.len().min(self.bytes.len()))
    }

    // The window by itself: a copy, which lends nothing.
    pub fn window(&self) -> Window
        ensures { (result.first ≡ self.now.first) × (result.passed ≡ self.now.passed) }
    {
        let first = self.first;
        let passed = self.passed;
        Window { first, passed }
    }

    // How many of the steps passed were handed out.
    pub fn handed(&self) -> usize
        ensures { result ≡ min (shortest (held self.now)) (self.now.passed - self.now.first) }
    {
        self.window().handed(self.slots())
    }

    // The step is passed; it goes into the slot with its number, counted from the window's first step, if there is one.
    fn hand(&mut self, kind: u32, address: u32, byte: u32)
        requires { Counts self.old 1 }
        ensures { HandedOne self.old (shown kind address byte) self.new }
    {
        let slot = self.passed.checked_sub(self.first);
        self.passed += 1;
        if let Some(i) = slot
            && i < self.slots()
        {
            self.kinds[i] = kind;
            self.addresses[i] = address;
            self.bytes[i] = byte;
        }
    }

    // One byte programmed.
    pub fn program(&mut self, at: usize, byte: u8)
        requires { (at < 2 ^ 32) × Counts self.old 1 }
        ensures { Handed self.old (Step.program at byte ∷ []) self.new }
    {
        self.hand(PROGRAM, at as u32, u32::from(byte));
    }

    // One sector erased: its byte is FF.
    pub fn erase(&mut self, at: usize)
        requires { (at < 2 ^ 32) × Counts self.old 1 }
        ensures { Handed self.old (Step.erase at ∷ []) self.new }
    {
        self.hand(ERASE, at as u32, 0xFF);
    }

    // 00 at this address, by way of another byte.
    pub fn program_by(&mut self, at: usize, by: u8)
        requires { (at < 2 ^ 32) × Counts self.old 2 }
        ensures { Handed self.old (Step.program at by ∷ Step.program at 0 ∷ []) self.new }
    {
        self.program(at, by);
        self.program(at, 0x00);
    }

    // These bytes programmed one after another, from this address on. Those before the window are skipped, those behind it only counted;
    // which lie in it is known before the first of them, so that the loop over them has no test.
    pub fn program_bytes(&mut self, at: usize, source: &[u8])
        requires { (at + length source.now < 2 ^ 32) × Counts self.old (length source.now) }
        ensures { Handed self.old (bytes_at at source.now) self.new }
    {
        let skipped = source.len().min(self.first.saturating_sub(self.passed));
        self.passed += skipped;
        let slot = self.passed.saturating_sub(self.first);
        let count = (source.len() - skipped).min(self.slots().saturating_sub(slot));
        fill_slots(
            &mut *self.kinds,
            &mut *self.addresses,
            &mut *self.bytes,
            slot,
            at + skipped,
            &source[skipped..skipped + count],
        );
        self.passed += source.len() - skipped;
    }

    // The sectors from the one at `from` on erased, ascending, as far as they end at `to` at most.
    pub fn erase_sectors(&mut self, from: usize, to: usize)
        requires { (from ≤ 2 ^ 24) × (to ≤ 2 ^ 24) × Counts self.old to }
        ensures handed { Handed self.old (map Step.erase (sectors from to)) self.new }
        ensures passed_bound { self.new.passed ≤ self.old.passed + to }
    {
        for a in (from..to.saturating_sub(SECTOR - 1)).step_by(SECTOR) {
            self.erase(a);
        }
    }
}
