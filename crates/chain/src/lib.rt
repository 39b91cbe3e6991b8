// The chain of an image: where its head is, the records from there on, the files among them, and whether their names repeat; the free run.
// Everything here only looks. Nothing passes over data bytes but the search for the head and the check of the free run.
#![tactic(auto)]

ghost use Rattle.std.specs.Prelude.{◌≡◌};
ghost use Rattle.spec.specs.Record.{name_of};
ghost use Rattle.chain.specs.Rest.{entry_of};
ghost use Rattle.chain.specs.Fold.{Whole};

pub mod files;
pub mod free;
pub mod head;
pub mod live;
pub mod names;
pub mod plain;
pub mod scan;
pub mod skip;
pub mod walk;

use spec::Refusal;

// A part of the image, from one address up to another.
#[derive(Clone, Copy)]
pub struct Stretch {
    pub from: usize,
    pub to: usize,
}

// What the search for the head finds: the head, and a run of FF that it passed over.
#[derive(Clone, Copy)]
pub struct Sighting {
    pub head: Result<usize, Refusal>,
    pub blank: Stretch,
}

// A place in the chain: the stretch [at, end) that is left, how many bytes from 0 on the chain may still go on to,
// whether it has turned, and whether an unfinished record stands before.
#[derive(Clone, Copy)]
pub struct Cursor {
    pub at: usize,
    pub end: usize,
    pub room: usize,
    pub turned: bool,
    pub pending: bool,
}

// Where a record stands, with its n name bytes and d data bytes. It is handed on beside the image, as a cursor is, and not in a struct that
// lends the image: repairs and moves keep it while they write, and each clause would have to say `self.entry.image.now`.
#[derive(Clone, Copy)]
pub struct Spot {
    pub at: usize,
    pub n: usize,
    pub d: usize,
}

impl Spot {
    // The name of the record that stands here.
    pub fn name(self, image: &[u8]) -> &[u8]
        requires { Whole image.now self }
        ensures { result.now ≡ name_of (entry_of image.now self) }
    {
        let at = self.at + 8;
        &image[at..at + self.n]
    }
}

// What stands at a cursor: a record, with the cursor past it; or how the chain ends, with the address and whether it had turned.
#[derive(Clone, Copy)]
pub enum Item {
    Record { spot: Spot, next: Cursor },
    End { at: usize, turned: bool },
    TornWrap { at: usize },
    Broken { at: usize, turned: bool },
}

// The sizes of the records that are FC or F8 with a name, summed; and of all others.
#[derive(Clone, Copy)]
pub struct Sums {
    pub files: usize,
    pub others: usize,
}

// Where a search goes on behind records that were passed over, and how many more it may pass.
#[derive(Clone, Copy)]
pub struct Skipped {
    pub cursor: Cursor,
    pub left: usize,
}

// Whether an FC record and whether an F8 record of some name stand in a part of the chain.
#[derive(Clone, Copy)]
pub struct Earlier {
    pub committed: bool,
    pub migrating: bool,
}

// Whether two FC or two F8 records have one name, and whether an F8 and an FC have one.
#[derive(Clone, Copy)]
pub struct Repeats {
    pub doubled: bool,
    pub superseded: bool,
}

// What one pass over the chain tells: how many records there are; how many of them are FC or F8 with a name; the sizes of these and of the
// others; the first, the second and the last of all; whether every FC or F8 record with a name has a good one; whether a START or CLEAN
// stands behind the second record; whether the last record is unfinished.
#[derive(Clone, Copy)]
pub struct Tally {
    pub records: usize,
    pub files: usize,
    pub sums: Sums,
    pub first: Spot,
    pub second: Spot,
    pub last: Spot,
    pub fine: bool,
    pub further: bool,
    pub pending: bool,
}

// The tally of a whole chain, and how the chain ends.
#[derive(Clone, Copy)]
pub struct Pass {
    pub tally: Tally,
    pub end: Item,
}

// The tally of the records before a cursor.
#[derive(Clone, Copy)]
pub struct Going {
    pub cursor: Cursor,
    pub tally: Tally,
}
