// The record at its place: the steps that put it there in place of an old one.
// Every byte goes through flash::program, and every sector through flash::erase.
#![tactic(auto)]

pub mod build;
pub mod format;

ghost use Rattle.std.specs.Prelude.{◌≡◌, true, ◌++◌, ◌+◌, ◌<◌, length};
ghost use Rattle.spec.specs.Write.{migrate_steps, delete_steps, put_steps};
ghost use Rattle.flash.specs.Did.{Did};
ghost use Rattle.flash.specs.Meters.{CanCount};
ghost use Rattle.writing.specs.Old.{old_entry, Lies};
ghost use Rattle.writing.specs.Put.{marks, Ready};

use build::{set_status, write_marker, write_record};
// Image and meter go as two arguments, not as one struct: put lends the image from the record's start as a part (docs/DECISIONS.md).
use flash::Meter;
use record::size;
use spec::{Place, Placement, Status};

// The file that a put replaces: its address and its status.
#[derive(Clone, Copy)]
pub struct OldFile {
    pub at: usize,
    pub status: Status,
}

// What goes before the new record: the old file's status FC to F8, if it is FC; then the marker, if one is needed.
pub fn prepare(image: &mut [u8], old: Option<OldFile>, tail: usize, marker: bool, m: Meter) -> Meter
    requires lies { Lies old (length image.old) }
    requires tail_in_bounds { marker ≡ true → tail + 2 < length image.old }
    requires can_count { CanCount m 4 }
    ensures { Did image.old m (migrate_steps (old_entry old) ++ marks marker tail) image.new result }
{
    let a = migrate(image, old, m);
    if marker {
        write_marker(image, tail, a)
    } else {
        a
    }
}

// FC to F8: the old file stays readable until it is deleted.
fn migrate(image: &mut [u8], old: Option<OldFile>, m: Meter) -> Meter
    requires lies { Lies old (length image.old) }
    requires can_count { CanCount m 1 }
    ensures { Did image.old m (migrate_steps (old_entry old)) image.new result }
{
    match old {
        Some(OldFile { at, status }) if status == Status::COMMITTED => {
            set_status(image, at, Status::MIGRATING, m)
        }
        _ => m,
    }
}

// The old file's status 00.
pub fn delete(image: &mut [u8], old: Option<OldFile>, m: Meter) -> Meter
    requires lies { Lies old (length image.old) }
    requires can_count { CanCount m 1 }
    ensures { Did image.old m (delete_steps (old_entry old)) image.new result }
{
    let Some(OldFile { at, .. }) = old else {
        return m;
    };
    set_status(image, at, Status::DELETED, m)
}

// A file in the place of an old one, step by step. The old one is deleted after the commit, so that a cut loses neither.
pub fn write_file(
    image: &mut [u8],
    place: Place,
    old: Option<OldFile>,
    name: &[u8],
    content: &[u8],
    m: Meter,
) -> Meter
    requires ready { Ready place (length image.old) (length name.now) (length content.now) m.asked }
    requires lies { Lies old (length image.old) }
    ensures { let steps = put_steps place (old_entry old) name.now content.now in
        Did image.old m steps image.new result }
{
    let Some(Placement { at, marker, .. }) = place.after(size(name.len(), content.len())) else {
        return m;
    };
    let a = prepare(image, old, place.tail, marker, m);
    let b = write_record(image, at, name, content, a);
    delete(image, old, b)
}
