// Names that stand twice among the FC and F8 records: a table of bits tells most names apart, so that names need not be compared pair by
// pair.
ghost use Rattle.std.specs.Prelude.{◌≡◌, ◌||◌};
ghost use Rattle.spec.specs.Files.{named, named_as};
ghost use Rattle.chain.specs.Cursor.{CursorSound};
ghost use Rattle.chain.specs.Rest.{entry_of};
ghost use Rattle.chain.specs.Fold.{Whole};
ghost use Rattle.chain.specs.Repeats.{earlier_of, repeats_with};
ghost use Rattle.chain.specs.Prefix.{front, front_and, earlier_with};
ghost use Rattle.chain.specs.Held.{Carried, FileSigned};

use crate::files::{named, named_as};
use crate::skip::skip_other_names;
use crate::walk::advance;
use crate::{Cursor, Earlier, Item, Repeats, Spot};
use filter::Signature;
use filter::table::{WORDS, add};
use spec::Status;

// What was found, or x is a record of this status and of e's name.
fn earlier_or(image: &[u8], found: bool, status: Status, e: Spot, x: Spot) -> bool
    requires { Whole image.now e × Whole image.now x }
    ensures { result ≡ (found || named_as status.byte (entry_of image.now e) (entry_of image.now x)) }
{
    found || named_as(image, status, e, x)
}

fn earlier_with(image: &[u8], f: Earlier, e: Spot, x: Spot) -> Earlier
    requires { Whole image.now e × Whole image.now x }
    ensures { result ≡ earlier_with f (entry_of image.now e) (entry_of image.now x) }
{
    Earlier {
        committed: earlier_or(image, f.committed, Status::COMMITTED, e, x),
        migrating: earlier_or(image, f.migrating, Status::MIGRATING, e, x),
    }
}

// Which records of e's name stand among the first records of the chain, as many as count says.
pub fn earlier(image: &[u8], start: Cursor, count: usize, e: Spot) -> Earlier
    requires { CursorSound image.now start × Whole image.now e }
    ensures { result ≡ earlier_of (front image.now start count) (entry_of image.now e) }
{
    let mut c = start;
    let mut left = count;
    let mut f = Earlier {
        committed: false,
        migrating: false,
    };
    loop {
        let o = skip_other_names(image, c, e, left);
        if o.left == 0 {
            return f;
        }
        let Item::Record { spot: x, next } = advance(image, o.cursor) else {
            return f;
        };
        f = earlier_with(image, f, e, x);
        left = o.left - 1;
        c = next;
    }
}

// With one record more, an FC or an F8, of whose name f stands before it.
fn repeats_with(n: Repeats, committed: bool, f: Earlier) -> Repeats
    ensures { result ≡ repeats_with n committed f }
{
    if committed {
        return Repeats {
            doubled: n.doubled | f.committed,
            superseded: n.superseded | f.migrating,
        };
    }
    Repeats {
        doubled: n.doubled | f.migrating,
        superseded: n.superseded | f.committed,
    }
}

// What is carried along, n, with the record e behind those that were passed, as many as count says: these records tell. It is seldom
// called, and two functions call it, so that the compiler keeps it out of the loop over plain records.
fn repeats_by(image: &[u8], start: Cursor, count: usize, n: Repeats, e: Spot) -> Repeats
    requires { CursorSound image.now start × Whole image.now e }
    ensures { result ≡ repeats_with n (named 0xFC (entry_of image.now e))
        (earlier_of (front image.now start count) (entry_of image.now e)) }
{
    let f = earlier(image, start, count, e);
    repeats_with(n, named(image, Status::COMMITTED, e), f)
}

// The same of n and the table, for a file whose name has the bits s. Where not all of them are set, no record of its name was passed. The
// spot is made anew for the call that seldom comes, so that the compiler keeps e in registers.
pub fn repeats_signed(
    image: &[u8],
    start: Cursor,
    count: usize,
    table: &mut [u64; WORDS],
    n: Repeats,
    e: Spot,
    s: Signature,
) -> Repeats
    requires { CursorSound image.now start × Whole image.now e × Carried (front image.now start count) n table.old
        × FileSigned (entry_of image.now e) s }
    ensures { Carried (front_and image.now start count e) result table.new }
{
    if add(table, s) {
        return repeats_by(
            image,
            start,
            count,
            n,
            Spot {
                at: e.at,
                n: e.n,
                d: e.d,
            },
        );
    }
    n
}
