// Plain records, which most of a chain is made of: the magic 5AA5, and a status that is neither torn nor reserved. Four bytes tell them,
// and none of the questions is asked that markers, last things and the turn ask.
ghost use Rattle.std.specs.Prelude.{length, ◌≤◌};
ghost use Rattle.chain.specs.Cursor.{CursorSound};
ghost use Rattle.chain.specs.Plain.{PlainIf, PlainFront, Near};

use crate::{Cursor, Spot};
use record::words::word_at;
use record::{plain_record_of, size};
use spec::{Next, Status};

// The first four bytes of a plain record: the magic, a status below that of a reserved one, FF. One load tells them all.
fn plain_header(part: &[u8]) -> bool
    requires { 8 ≤ length part.now }
    ensures { PlainIf part.now result }
{
    let h = word_at(part, 0);
    if h % 0x1_0000 == 0x5AA5 && h / 0x100_0000 % 256 == 0xFF {
        return h / 0x1_0000 % 256 < Status::RESERVED.byte as u64;
    }
    false
}

// The record at the front of the part, if it is plain and ends there; anything else is none here.
pub fn plain_of(part: &[u8]) -> Next
    ensures { PlainFront part.now result }
{
    if part.len() < 8 {
        return Next::Bad;
    }
    if plain_header(part) {
        return plain_record_of(part);
    }
    Next::Bad
}

// The record at c, if it is plain, with the cursor past it.
pub fn near(image: &[u8], c: Cursor) -> Option<(Spot, Cursor)>
    requires { CursorSound image.now c }
    ensures { Near image.now c result }
{
    if c.pending {
        return None;
    }
    let Next::Record { n, d } = plain_of(&image[c.at..c.end]) else {
        return None;
    };
    Some((
        Spot { at: c.at, n, d },
        Cursor {
            at: c.at + size(n, d),
            pending: false,
            ..c
        },
    ))
}
