// One pass over the chain: the tally of its records.
ghost use Rattle.std.specs.Prelude.{◌≡◌, cond, ◌&&◌, ◌||◌, ◌+◌, ◌≤◌, ◌<◌, ◌^◌, length, ltb};
ghost use Rattle.spec.specs.Reading.{marked};
ghost use Rattle.laws.specs.Length.{Addable};
ghost use Rattle.chain.specs.Cursor.{CursorSound, left, unfinished_at};
ghost use Rattle.chain.specs.Rest.{rest, entry_of};
ghost use Rattle.chain.specs.Fold.{Whole};
ghost use Rattle.chain.specs.FileLaws.{is_file};
ghost use Rattle.chain.specs.Tally.{name_fine, count_with, sums_with, AddableSize, noted, noted_plain, none_yet};
ghost use Rattle.chain.specs.Tally.{passed, Passing, Spots, EndInside};

use crate::files::is_file;
use crate::plain::near;
use crate::walk::advance;
use crate::{Cursor, Going, Item, Pass, Spot, Sums, Tally};
use record::bytes::is_clean;
use record::name::name_ok;
use record::size;
use spec::START;

// An FC or F8 record with a name has a good one.
pub fn name_fine(image: &[u8], e: Spot) -> bool
    requires { Whole image.now e }
    ensures { result ≡ name_fine (entry_of image.now e) }
{
    !is_file(image, e) || name_ok(e.name(image))
}

fn fine_with(image: &[u8], fine: bool, e: Spot) -> bool
    requires { Whole image.now e }
    ensures { result ≡ (fine && name_fine (entry_of image.now e)) }
{
    fine && name_fine(image, e)
}

// The first byte of the record at e.
pub fn low_of(image: &[u8], e: Spot) -> u8
    requires { Whole image.now e }
    ensures { result ≡ (entry_of image.now e).it.low }
{
    image[e.at]
}

// A START or a CLEAN.
pub fn marked(image: &[u8], e: Spot) -> bool
    requires { Whole image.now e }
    ensures { result ≡ marked (entry_of image.now e) }
{
    let low = low_of(image, e);
    low == START || is_clean(low)
}

fn further_with(image: &[u8], further: bool, records: usize, e: Spot) -> bool
    requires { Whole image.now e }
    ensures { result ≡ (further || (ltb 1 records && marked (entry_of image.now e))) }
{
    further || 1 < records && marked(image, e)
}

// Field by field, so that the compiler keeps the fields in registers.
fn spot_if(fresh: bool, e: Spot, before: Spot) -> Spot
    ensures { result ≡ cond fresh e before }
{
    if fresh {
        return Spot {
            at: e.at,
            n: e.n,
            d: e.d,
        };
    }
    Spot {
        at: before.at,
        n: before.n,
        d: before.d,
    }
}

// The count with one record more, if it is a file.
fn count_with(files: usize, file: bool) -> usize
    requires { Addable files }
    ensures { result ≡ count_with files file }
{
    if file {
        return files + 1;
    }
    files
}

// The sums with one record's size more.
fn sums_with(s: Sums, size: usize, file: bool) -> Sums
    requires { s.files + s.others + size ≤ 2 ^ 25 }
    ensures { result ≡ sums_with s size file }
{
    if file {
        return Sums {
            files: s.files + size,
            ..s
        };
    }
    Sums {
        others: s.others + size,
        ..s
    }
}

// The tally with one record more: whether it is a file, whether all names so far are good, whether it is unfinished.
pub fn noted_as(image: &[u8], t: Tally, e: Spot, file: bool, fine: bool, pending: bool) -> Tally
    requires { Whole image.now e × Addable t.records × (pending ≡ unfinished_at image.now e.at)
        × (t.files ≤ t.records) × AddableSize t.sums e × (file ≡ is_file (entry_of image.now e))
        × (fine ≡ (t.fine && name_fine (entry_of image.now e))) }
    ensures { result ≡ noted t (entry_of image.now e) }
{
    Tally {
        records: t.records + 1,
        files: count_with(t.files, file),
        sums: sums_with(t.sums, size(e.n, e.d), file),
        first: spot_if(t.records == 0, e, t.first),
        second: spot_if(t.records <= 1, e, t.second),
        last: e,
        fine,
        further: further_with(image, t.further, t.records, e),
        pending,
    }
}

// The same, where nothing is known of the record yet.
pub fn noted(image: &[u8], t: Tally, e: Spot, pending: bool) -> Tally
    requires { Whole image.now e × Addable t.records × (pending ≡ unfinished_at image.now e.at)
        × (t.files ≤ t.records) × AddableSize t.sums e }
    ensures { result ≡ noted t (entry_of image.now e) }
{
    let file = is_file(image, e);
    let fine = fine_with(image, t.fine, e);
    noted_as(image, t, e, file, fine, pending)
}

// The same for a plain record behind the second, a file or not: the first, the second and the marks stay.
pub fn noted_plain(t: Tally, e: Spot, file: bool, fine: bool, pending: bool) -> Tally
    requires { Addable t.records × (t.files ≤ t.records) × AddableSize t.sums e }
    ensures { result ≡ noted_plain t e file fine pending }
{
    Tally {
        records: t.records + 1,
        files: count_with(t.files, file),
        sums: sums_with(t.sums, size(e.n, e.d), file),
        last: e,
        fine,
        pending,
        ..t
    }
}

pub fn none_yet() -> Tally
    ensures { result ≡ none_yet }
{
    let e = Spot { at: 0, n: 0, d: 0 };
    Tally {
        records: 0,
        files: 0,
        sums: Sums {
            files: 0,
            others: 0,
        },
        first: e,
        second: e,
        last: e,
        fine: true,
        further: false,
        pending: false,
    }
}

// With the plain records from the cursor on, behind the second record.
fn pass_plain(image: &[u8], start: Cursor, first: Going) -> Going
    requires { CursorSound image.now start × Passing image.now start first.cursor first.tally
        × (2 ≤ first.tally.records) }
    ensures { Passing image.now start result.cursor result.tally × (left result.cursor ≤ left first.cursor) }
{
    let mut g = first;
    while let Some((e, next)) = near(image, g.cursor) {
        let t = g.tally;
        let file = is_file(image, e);
        let fine = fine_with(image, t.fine, e);
        g = Going {
            cursor: next,
            tally: noted_plain(t, e, file, fine, next.pending),
        };
    }
    g
}

// The one pass over the chain; plain records are gone over by themselves.
pub fn pass(image: &[u8], start: Cursor) -> Pass
    requires { CursorSound image.now start × (16 ≤ length image.now) }
    ensures { (result ≡ passed none_yet (rest image.now start)) × Spots image.now result.tally
        × EndInside image.now result.end }
{
    let mut g = Going {
        cursor: start,
        tally: none_yet(),
    };
    loop {
        let tally = g.tally;
        let end = advance(image, g.cursor);
        let Item::Record { spot: e, next } = end else {
            return Pass { tally, end };
        };
        g = Going {
            cursor: next,
            tally: noted(image, tally, e, next.pending),
        };
        if 2 <= g.tally.records {
            g = pass_plain(image, start, g);
        }
    }
}
