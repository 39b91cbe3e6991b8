// The one pass of a judgement: the tally of all records, what their names tell, and the first file of a hash. Plain records are gone over
// by themselves, so that the compiler keeps most of what is carried along in registers.
ghost use Rattle.std.specs.Prelude.{◌≡◌, true, false, ◌≤◌, ◌<◌, ◌^◌, length};
ghost use Rattle.chain.specs.Cursor.{CursorSound, left};
ghost use Rattle.chain.specs.Rest.{rest, entry_of};
ghost use Rattle.chain.specs.FileLaws.{is_file};
ghost use Rattle.chain.specs.Tally.{none_yet, passed, Spots, EndInside};
ghost use Rattle.chain.specs.Repeats.{repeats_of};
ghost use Rattle.reading.specs.Sought.{hash_of, has_hash, Sought};
ghost use Rattle.reading.specs.Gather.{nothing_yet, Gathering, Noting, PlainFile};

use crate::marks::{hash_of, marks_of};
use crate::sought::{found_of, not_seen, seen_or};
use crate::{FullPass, Gathered};
use chain::files::is_file;
use chain::names::repeats_signed;
use chain::plain::near;
use chain::scan::{name_fine, none_yet, noted_as, noted_plain};
use chain::walk::advance;
use chain::{Cursor, Item, Pass, Repeats, Spot};
use filter::table::{WORDS, signature_by};

// What is gathered, with one record more, which stands before next and is a file. Its name is read twice: `marks_of` is left to the loop
// over plain records alone, so that the compiler puts it there.
fn gather_named(
    image: &[u8],
    start: Cursor,
    table: &mut [u64; WORDS],
    g: Gathered,
    e: Spot,
    next: Cursor,
    wanted: u64,
) -> Gathered
    requires { CursorSound image.now start × Noting image.now start wanted e next g table.old
        × (is_file (entry_of image.now e) ≡ true) }
    ensures { Gathering image.now start wanted result table.new × (result.cursor ≡ next) }
{
    let t = g.tally;
    let h = hash_of(image, e);
    let s = signature_by(h);
    let sight = seen_or(h == wanted, g.sight, e);
    let repeats = repeats_signed(image, start, t.records, table, g.repeats, e, s);
    let fine = name_fine(image, e);
    Gathered {
        cursor: next,
        tally: noted_as(image, t, e, true, t.fine & fine, next.pending),
        repeats,
        sight,
    }
}

// The same for any record.
fn gather_one(
    image: &[u8],
    start: Cursor,
    table: &mut [u64; WORDS],
    g: Gathered,
    e: Spot,
    next: Cursor,
    wanted: u64,
) -> Gathered
    requires { CursorSound image.now start × Noting image.now start wanted e next g table.old }
    ensures { Gathering image.now start wanted result table.new × (result.cursor ≡ next) }
{
    if is_file(image, e) {
        return gather_named(image, start, table, g, e, next, wanted);
    }
    let t = g.tally;
    Gathered {
        cursor: next,
        tally: noted_as(image, t, e, false, t.fine, next.pending),
        ..g
    }
}

// The same for a plain one that is a file, whose name is a good one and has this hash, not the one that is wanted: what was seen stays,
// and so does whether all names are good.
fn gather_file(
    image: &[u8],
    start: Cursor,
    table: &mut [u64; WORDS],
    g: Gathered,
    e: Spot,
    next: Cursor,
    wanted: u64,
    hash: u64,
) -> Gathered
    requires { CursorSound image.now start × Noting image.now start wanted e next g table.old
        × PlainFile image.now e g.tally × (hash ≡ hash_of (entry_of image.now e)) × (hash < 2 ^ 32)
        × (has_hash wanted (entry_of image.now e) ≡ false) }
    ensures { Gathering image.now start wanted result table.new × (result.cursor ≡ next)
        × (2 ≤ result.tally.records) }
{
    let t = g.tally;
    let s = signature_by(hash);
    Gathered {
        cursor: next,
        repeats: repeats_signed(image, start, t.records, table, g.repeats, e, s),
        tally: noted_plain(t, e, true, t.fine, next.pending),
        ..g
    }
}

// With the plain records from the cursor on, up to a file whose name has the hash that is wanted, or is not a good one: so neither what was
// seen nor whether all names are good is carried along.
fn gather_plain(
    image: &[u8],
    start: Cursor,
    table: &mut [u64; WORDS],
    first: Gathered,
    wanted: u64,
) -> Gathered
    requires { CursorSound image.now start × Gathering image.now start wanted first table.old
        × (2 ≤ first.tally.records) }
    ensures { Gathering image.now start wanted result table.new
        × (left result.cursor ≤ left first.cursor) }
{
    let mut g = first;
    while let Some((e, next)) = near(image, g.cursor) {
        if is_file(image, e) {
            let name = marks_of(image, e);
            if name.hash == wanted {
                return g;
            }
            if !name.fine {
                return g;
            }
            g = gather_file(image, start, table, g, e, next, wanted, name.hash);
        } else {
            let t = g.tally;
            g = Gathered {
                cursor: next,
                tally: noted_plain(t, e, false, t.fine, next.pending),
                ..g
            };
        }
    }
    g
}

fn nothing_yet(start: Cursor) -> Gathered
    ensures { result ≡ nothing_yet start }
{
    Gathered {
        cursor: start,
        tally: none_yet(),
        repeats: Repeats {
            doubled: false,
            superseded: false,
        },
        sight: not_seen(),
    }
}

// All records from the cursor on; wanted is the hash of a name.
pub fn gather(image: &[u8], start: Cursor, wanted: u64) -> FullPass
    requires { CursorSound image.now start × (16 ≤ length image.now) }
    ensures { (result.pass ≡ passed none_yet (rest image.now start)) × Spots image.now result.pass.tally
        × EndInside image.now result.pass.end × (result.repeats ≡ repeats_of (rest image.now start).entries)
        × Sought image.now wanted (rest image.now start).entries result.found }
{
    let mut table = [0u64; WORDS];
    let mut g = nothing_yet(start);
    loop {
        let end = advance(image, g.cursor);
        let Item::Record { spot: e, next } = end else {
            return FullPass {
                pass: Pass {
                    tally: g.tally,
                    end,
                },
                repeats: g.repeats,
                found: found_of(g.sight),
            };
        };
        g = gather_one(image, start, &mut table, g, e, next, wanted);
        if 2 <= g.tally.records {
            g = gather_plain(image, start, &mut table, g, wanted);
        }
    }
}
