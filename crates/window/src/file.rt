// A file in the place of an old one, handed out: a put's steps, and those of the copy in a move.
ghost use Rattle.std.specs.Prelude.{◌≡◌, true, ◌++◌, ◌+◌, ◌≤◌, ◌^◌, length};
ghost use Rattle.spec.specs.Step.{shifted};
ghost use Rattle.spec.specs.Write.{record_steps, migrate_steps, delete_steps, put_steps};
ghost use Rattle.writing.specs.Old.{old_entry, Lies};
ghost use Rattle.writing.specs.Put.{marks, Ready};
ghost use Rattle.record.specs.Within.{NameLength};
ghost use Rattle.window.specs.Handed.{Handed, Counts};

use crate::Emitter;
use record::size;
use spec::{Place, Placement, Status};
use writing::OldFile;

impl Emitter<'_> {
    // The old file's status FC to F8, if it is FC.
    fn migrate(&mut self, old: Option<OldFile>)
        requires lies { Lies old (2 ^ 24) }
        requires counts { Counts self.old 1 }
        ensures { Handed self.old (migrate_steps (old_entry old)) self.new }
    {
        if let Some(OldFile { at, status }) = old
            && status == Status::COMMITTED
        {
            self.status(at, Status::MIGRATING);
        }
    }

    // The old file's status 00.
    fn delete(&mut self, old: Option<OldFile>)
        requires lies { Lies old (2 ^ 24) }
        requires counts { Counts self.old 1 }
        ensures { Handed self.old (delete_steps (old_entry old)) self.new }
    {
        if let Some(OldFile { at, .. }) = old {
            self.status(at, Status::DELETED);
        }
    }

    // What goes before the new record: the old file's status, and the marker, if one is needed.
    fn prepare(&mut self, old: Option<OldFile>, tail: usize, marker: bool)
        requires lies { Lies old (2 ^ 24) × (marker ≡ true → tail ≤ 2 ^ 24) }
        requires counts { Counts self.old 4 }
        ensures { Handed self.old (migrate_steps (old_entry old) ++ marks marker tail) self.new }
    {
        self.migrate(old);
        if marker {
            self.marker(tail);
        }
    }

    // The new record, and then the end of the old one.
    fn new_record(&mut self, old: Option<OldFile>, at: usize, name: &[u8], content: &[u8])
        requires lies { Lies old (2 ^ 24) × (at ≤ 2 ^ 24) × NameLength (length name.now) × (length content.now ≤ 2 ^ 24) }
        requires counts { Counts self.old (length name.now + length content.now + 11) }
        ensures { Handed self.old
            (shifted at (record_steps name.now content.now) ++ delete_steps (old_entry old))
            self.new }
    {
        self.record(at, name, content);
        self.delete(old);
    }

    // All of it, of a record that fits.
    pub fn file(&mut self, place: Place, old: Option<OldFile>, name: &[u8], content: &[u8])
        requires ready { Ready place place.length (length name.now) (length content.now) self.old.passed }
        requires lies { Lies old place.length }
        ensures { Handed self.old (put_steps place (old_entry old) name.now content.now) self.new }
    {
        let Placement { at, marker, .. } = place.after(size(name.len(), content.len())).unwrap();
        self.prepare(old, place.tail, marker);
        self.new_record(old, at, name, content);
    }
}
