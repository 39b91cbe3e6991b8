// Files: which records are live, and the file of a name or of an index.
ghost use Rattle.std.specs.Prelude.{◌≡◌, length};
ghost use Rattle.std.proofs.Math.ListN.{get_elem?};
ghost use Rattle.spec.specs.Basics.{same, keep, first_such};
ghost use Rattle.spec.specs.Files.{same_name, named, named_as, has_named, live, superseded, files, has_name};
ghost use Rattle.chain.specs.Cursor.{CursorSound};
ghost use Rattle.chain.specs.Rest.{rest, entry_of};
ghost use Rattle.chain.specs.Fold.{Whole};
ghost use Rattle.chain.specs.FileLaws.{is_file};
ghost use Rattle.chain.specs.Seek.{found_in, FoundWhole};

use crate::skip::{skip_files, skip_others};
use crate::walk::advance;
use crate::{Cursor, Item, Spot};
use spec::Status;

// Two slices hold the same bytes: the lengths tell most apart. Not by ==, which was tried: a search took a third longer where names begin
// alike.
fn same_bytes(x: &[u8], y: &[u8]) -> bool
    ensures { result ≡ same x.now y.now }
{
    if x.len() != y.len() {
        return false;
    }
    for i in 0..x.len() {
        if x[i] != y[i] {
            return false;
        }
    }
    true
}

// The record has this name.
pub fn has_name(image: &[u8], e: Spot, name: &[u8]) -> bool
    requires { Whole image.now e }
    ensures { result ≡ has_name name.now (entry_of image.now e) }
{
    same_bytes(e.name(image), name)
}

fn same_name(image: &[u8], e: Spot, f: Spot) -> bool
    requires { Whole image.now e × Whole image.now f }
    ensures { result ≡ same_name (entry_of image.now e) (entry_of image.now f) }
{
    same_bytes(e.name(image), f.name(image))
}

// The record has this status and a name.
pub fn named(image: &[u8], status: Status, e: Spot) -> bool
    requires { Whole image.now e }
    ensures { result ≡ named status.byte (entry_of image.now e) }
{
    image[e.at + 2] == status.byte && 0 < e.n
}

pub fn named_as(image: &[u8], status: Status, e: Spot, f: Spot) -> bool
    requires { Whole image.now e × Whole image.now f }
    ensures { result ≡ named_as status.byte (entry_of image.now e) (entry_of image.now f) }
{
    named(image, status, f) && same_name(image, e, f)
}

// Whether a record from the cursor on has this status and e's name.
pub fn has_named(image: &[u8], start: Cursor, status: Status, e: Spot) -> bool
    requires { CursorSound image.now start × Whole image.now e }
    ensures { result ≡ has_named status.byte (rest image.now start).entries (entry_of image.now e) }
{
    let mut c = start;
    while let Item::Record { spot: f, next } = advance(image, c) {
        if named_as(image, status, e, f) {
            return true;
        }
        c = next;
    }
    false
}

// Whether the record is a live file of the chain from start on.
pub fn is_live(image: &[u8], start: Cursor, e: Spot) -> bool
    requires { CursorSound image.now start × Whole image.now e }
    ensures { result ≡ live (rest image.now start).entries (entry_of image.now e) }
{
    named(image, Status::COMMITTED, e)
        || named(image, Status::MIGRATING, e) && !has_named(image, start, Status::COMMITTED, e)
}

// The number of live files.
pub fn count_files(image: &[u8], start: Cursor) -> usize
    requires { CursorSound image.now start }
    ensures { result ≡ length (files (rest image.now start).entries) }
{
    let mut c = start;
    let mut count = 0;
    while let Item::Record { spot: e, next } = advance(image, c) {
        if is_live(image, start, e) {
            count += 1;
        }
        c = next;
    }
    count
}

// An F8 record that has an FC record of its name.
pub fn is_superseded(image: &[u8], start: Cursor, e: Spot) -> bool
    requires { CursorSound image.now start × Whole image.now e }
    ensures { result ≡ superseded (rest image.now start).entries (entry_of image.now e) }
{
    named(image, Status::MIGRATING, e) && has_named(image, start, Status::COMMITTED, e)
}

// An FC or F8 record with a name: where nothing is superseded, these are the live files.
#[tactic(auto, unfolding(crate::specs::FileLaws::is_file))]
pub fn is_file(image: &[u8], e: Spot) -> bool
    requires { Whole image.now e }
    ensures { result ≡ is_file (entry_of image.now e) }
{
    named(image, Status::COMMITTED, e) || named(image, Status::MIGRATING, e)
}

// The file of this name, where nothing is superseded.
pub fn file_named(image: &[u8], start: Cursor, name: &[u8]) -> Option<Spot>
    requires { CursorSound image.now start }
    ensures { (found_in image.now result
        ≡ first_such (has_name name.now) (keep is_file (rest image.now start).entries))
        × FoundWhole image.now result }
{
    let mut c = start;
    loop {
        let o = skip_others(image, c, name, image.len());
        let Item::Record { spot: e, next } = advance(image, o.cursor) else {
            return None;
        };
        if is_file(image, e) && has_name(image, e, name) {
            return Some(e);
        }
        c = next;
    }
}

// The file with this index, where nothing is superseded. What is left of the index is handed from one walk to the next, so no `for` counts
// it.
pub fn file_indexed(image: &[u8], start: Cursor, index: usize) -> Option<Spot>
    requires { CursorSound image.now start }
    ensures { (found_in image.now result ≡ get_elem? (keep is_file (rest image.now start).entries) index)
        × FoundWhole image.now result }
{
    let mut c = start;
    let mut left = index;
    loop {
        let o = skip_files(image, c, left);
        left = o.left;
        let Item::Record { spot: e, next } = advance(image, o.cursor) else {
            return None;
        };
        if is_file(image, e) {
            if left == 0 {
                return Some(e);
            }
            left -= 1;
        }
        c = next;
    }
}
