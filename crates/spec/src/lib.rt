// Document 01 as definitions (specs/), and the types and named bytes that all layers share.
// Nothing here reads or writes an image; the layers above are proved against what stands here.
#![tactic(auto)]

ghost use Rattle.std.specs.Prelude.{◌≡◌, ◌≤◌};
ghost use Rattle.spec.specs.Geometry.{floor};
ghost use Rattle.spec.specs.Reading.{limit};
ghost use Rattle.spec.specs.Place.{fits_at_tail};
ghost use Rattle.spec.specs.Placed.{placed, with_tail};
ghost use Rattle.spec.specs.declared.Refusal.{Refusal};
ghost use Rattle.spec.specs.Refusals.{fault_numbers, fault_told, refusal_numbers};

// What the first four bytes say of what stands there.
#[derive(Clone, Copy, Debug, PartialEq, Eq)]
pub enum Kind {
    Record,
    Reserved,
    Torn,
    Marker,
    TornMarker,
    Clear,
    Bad,
}

// What stands at the front of a part: a record with n name bytes and d data bytes, a wrap marker, a torn one, eight FF bytes,
// nothing at all, or what breaks a rule.
#[derive(Clone, Copy, Debug, PartialEq, Eq)]
pub enum Next {
    Record { n: usize, d: usize },
    Wrap,
    TornWrap,
    Clear,
    Over,
    Bad,
}

// How a chain ends: at its tail, with a torn wrap at an address, or by a broken rule.
#[derive(Clone, Copy, Debug, PartialEq, Eq)]
pub enum Ending {
    Tail,
    TornWrap { at: usize },
    Broken,
}

// Where the next record may go: head, tail, whether the chain has turned, the image's length.
#[derive(Clone, Copy, Debug, PartialEq, Eq)]
pub struct Place {
    pub head: usize,
    pub tail: usize,
    pub turned: bool,
    pub length: usize,
}

// Where a size goes that fits: its address, whether a wrap marker goes to the tail before it, and the place after it.
#[derive(Clone, Copy, Debug, PartialEq, Eq)]
pub struct Placement {
    pub at: usize,
    pub marker: bool,
    pub place: Place,
}

impl Place {
    // Where the stretch of the free run that begins at the tail ends.
    pub fn limit(self) -> usize
        ensures { result ≡ limit self }
    {
        if self.turned {
            floor(self.head)
        } else {
            self.length
        }
    }

    // Whether the size fits at the tail. Any size may be asked for: nothing here wraps.
    #[tactic(auto, unfolding(crate::specs::Place::fits_at_tail))]
    fn fits_at_tail(self, size: usize) -> bool
        ensures { result ≡ fits_at_tail self size }
    {
        let end = self.limit();
        self.tail <= end && size <= end - self.tail
    }

    // At the tail if it fits there; before the turn also at 0, up to the head's sector; else it doesn't fit.
    #[tactic(auto, unfolding(crate::specs::Place::fits_at_tail))]
    pub fn after(self, size: usize) -> Option<Placement>
        ensures { result ≡ placed self size }
    {
        if self.fits_at_tail(size) {
            return Some(Placement {
                at: self.tail,
                marker: false,
                place: self.with_tail(self.tail + size, self.turned),
            });
        }
        if self.turned || floor(self.head) < size {
            return None;
        }
        Some(Placement {
            at: 0,
            marker: self.tail < self.length,
            place: self.with_tail(size, true),
        })
    }

    // The same place with another tail, turned or not.
    fn with_tail(self, tail: usize, turned: bool) -> Place
        ensures { result ≡ with_tail self tail turned }
    {
        Place {
            tail,
            turned,
            ..self
        }
    }
}

// What is wrong with a file's name, in the order in which it is tested: nothing stands in it, it is too long, it has a byte that may not
// stand there, the first of them at this place, or it ends in a slash.
#[derive(Clone, Copy, Debug, PartialEq, Eq)]
pub enum NameFault {
    Empty,
    TooLong,
    BadByte { place: usize },
    FinalSlash,
}

impl NameFault {
    // K5's reason, 1 to 4.
    pub fn reason(self) -> u32
        ensures { result ≡ (fault_numbers self).reason }
    {
        match self {
            NameFault::Empty => 1,
            NameFault::TooLong => 2,
            NameFault::BadByte { .. } => 3,
            NameFault::FinalSlash => 4,
        }
    }

    // The bad byte's place; 0 where that is not what is wrong.
    pub fn place(self) -> usize
        ensures { result ≡ (fault_numbers self).place }
    {
        match self {
            NameFault::BadByte { place } => place,
            _ => 0,
        }
    }
}

// Why a call is refused.
#[derive(Clone, Copy, Debug, PartialEq, Eq)]
pub enum Refusal {
    // there is no file of that name or with that index
    NoFile,
    // the chain breaks a rule
    Broken,
    // no head is found
    Headless,
    // mount has something to do first
    Unsettled,
    // the image's length is none that an image may have
    BadLength,
    // this is wrong with the name
    BadName(NameFault),
    // the flash has no room for it
    NoRoom,
}

impl Refusal {
    // Document 01's number.
    pub fn number(self) -> u32
        ensures { result ≡ (refusal_numbers self).number }
    {
        match self {
            Refusal::NoFile => 2,
            Refusal::Broken => 5,
            Refusal::Headless => 6,
            Refusal::Unsettled => 16,
            Refusal::BadLength => 22,
            Refusal::BadName(_) => 22,
            Refusal::NoRoom => 28,
        }
    }

    // What is wrong with the name, where that is why.
    pub fn fault(self) -> Option<NameFault>
        ensures { fault_told result ≡ (refusal_numbers self).name }
    {
        match self {
            Refusal::BadName(fault) => Some(fault),
            _ => None,
        }
    }
}

impl From<NameFault> for Refusal {
    ghost from_gives = { λ f x. x ≡ Refusal.BadName f };

    fn from(fault: NameFault) -> Refusal {
        Refusal::BadName(fault)
    }
}

// What mount reports of the image it leaves: head, tail, the number of live files.
#[derive(Clone, Copy, Debug, PartialEq, Eq)]
pub struct Report {
    pub head: usize,
    pub tail: usize,
    pub files: usize,
}

// What the bytes of an image are good for, as mount, put and sweep tell it of the image that they leave.
#[derive(Clone, Copy, Debug, PartialEq, Eq)]
pub struct Space {
    pub live: usize,
    pub dead: usize,
    pub free: usize,
    pub lost: usize,
}

// The rules of the reading, in the order in which they are tested at one address: no head is found; an unfinished record or marker is not
// the last thing, or is not as it may be; magic, status or reserved byte; the name; the record's end; a CLEAN, START or marker out of
// place; a byte of the free run.
#[derive(Clone, Copy, Debug, PartialEq, Eq)]
pub enum Rule {
    Head,
    Unfinished,
    Header,
    Name,
    End,
    Mark,
    Free,
}

// A broken rule with its address.
#[derive(Clone, Copy, Debug, PartialEq, Eq)]
pub struct Fault {
    pub rule: Rule,
    pub at: usize,
}

// What the check of an image says: mount has nothing to do, or what it does begins with the repair of this number, or it refuses. K13
// answers 01's number of the repair, and its theorem `agree` speaks of it, so it is a number here too.
#[derive(Clone, Copy, Debug, PartialEq, Eq)]
pub enum Verdict {
    Settled,
    Recovery { number: u32 },
    Broken { rule: Rule, at: usize },
}

// A stretch of the image.
#[derive(Clone, Copy, Debug, PartialEq, Eq)]
pub struct Extent {
    pub offset: usize,
    pub length: usize,
}

// A record's status byte.
#[derive(Clone, Copy, Debug, PartialEq, Eq)]
pub struct Status {
    pub byte: u8,
}

impl Status {
    // The seven published values.
    pub const ERASED: Status = Status { byte: 0xFF };

    pub const RESERVED: Status = Status { byte: 0xFE };

    pub const COMMITTED: Status = Status { byte: 0xFC };

    pub const MIGRATING: Status = Status { byte: 0xF8 };

    pub const WRAP: Status = Status { byte: 0xF0 };

    pub const WEAR: Status = Status { byte: 0xE0 };

    pub const DELETED: Status = Status { byte: 0x00 };

    // The status that a byte of an image stands for, published or not.
    pub fn from_byte(byte: u8) -> Status
        ensures { result.byte ≡ byte }
    {
        Status { byte }
    }
}

// A sector's length.
pub const SECTOR: usize = 4096;

// The start of a's sector.
pub fn floor(a: usize) -> usize
    ensures { (result ≡ floor a) × (result ≤ a) }
{
    a / SECTOR * SECTOR
}

// The second byte of every magic.
pub const HIGH: u8 = 0x5A;
// The first byte of a record's magic, of START's, of CLEAN's and of a wrap marker's.
pub const RECORD: u8 = 0xA5;

pub const START: u8 = 0x00;

pub const CLEAN: u8 = 0xA0;

pub const WRAP: u8 = 0xFA;
