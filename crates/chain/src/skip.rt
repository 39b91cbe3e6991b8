// A search for a name or an index: the plain records that are not the file looked for are passed over by themselves. Each loop gives its
// answer where it ends: with `break` and one answer behind the loop, which was tried, a search took a fifth longer.
ghost use Rattle.std.specs.Prelude.{◌≡◌, ◌&&◌, ◌≤◌};
ghost use Rattle.spec.specs.Files.{has_name};
ghost use Rattle.spec.specs.Record.{name_of};
ghost use Rattle.chain.specs.Cursor.{CursorSound, left};
ghost use Rattle.chain.specs.Rest.{entry_of};
ghost use Rattle.chain.specs.Fold.{Whole, Folded};
ghost use Rattle.chain.specs.FileLaws.{is_file};
ghost use Rattle.chain.specs.Seek.{nth_of};
ghost use Rattle.chain.specs.Skip.{SkipsOthers};

use crate::files::{has_name, is_file};
use crate::plain::near;
use crate::{Cursor, Skipped, Spot};

// The record is a file of this name.
fn is_file_named(image: &[u8], e: Spot, name: &[u8]) -> bool
    requires { Whole image.now e }
    ensures { result
        ≡ (is_file (entry_of image.now e) && has_name name.now (entry_of image.now e)) }
{
    if is_file(image, e) {
        return has_name(image, e, name);
    }
    false
}

// Past plain records that are no files of this name, from the cursor on, as many as `most` says at most. The count goes down by hand, and
// each way out answers for itself: with one answer behind the loop a search took a fifth longer.
pub fn skip_others(image: &[u8], start: Cursor, name: &[u8], most: usize) -> Skipped
    requires { CursorSound image.now start }
    ensures { SkipsOthers image.now start name.now most result.cursor result.left }
{
    let mut c = start;
    let mut left = most;
    while 0 < left {
        let s = near(image, c);
        let Some((e, next)) = s else {
            return Skipped { cursor: c, left };
        };
        if is_file_named(image, e, name) {
            return Skipped { cursor: c, left };
        }
        left -= 1;
        c = next;
    }
    Skipped { cursor: c, left }
}

// The same for the name of the record e.
pub fn skip_other_names(image: &[u8], start: Cursor, e: Spot, most: usize) -> Skipped
    requires { CursorSound image.now start × Whole image.now e }
    ensures { SkipsOthers image.now start (name_of (entry_of image.now e)) most result.cursor result.left }
{
    skip_others(image, start, e.name(image), most)
}

// Past plain records and as many files among them as index says; what is left of it is given back.
pub fn skip_files(image: &[u8], start: Cursor, index: usize) -> Skipped
    requires { CursorSound image.now start }
    ensures { Folded (nth_of is_file) image.now start index result.cursor result.left
        × (left result.cursor ≤ left start) }
{
    let mut c = start;
    let mut more = index;
    loop {
        let s = near(image, c);
        let Some((e, next)) = s else {
            return Skipped {
                cursor: c,
                left: more,
            };
        };
        if is_file(image, e) {
            if more == 0 {
                return Skipped {
                    cursor: c,
                    left: more,
                };
            }
            more -= 1;
        }
        c = next;
    }
}
