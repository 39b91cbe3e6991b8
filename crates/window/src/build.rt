// A record at its place, handed out: its phases in the order of a put; also the marker and the status byte.
// Twin of writing/src/build.rt, apart by document 01's form: put lends the image's part to its writers, and a window has no image.
ghost use Rattle.std.specs.Prelude.{[], ◌∷◌, ◌++◌, ◌+◌, ◌<◌, ◌≤◌, ◌^◌, length};
ghost use Rattle.spec.specs.Step.{Step, shifted};
ghost use Rattle.spec.specs.Write.{marker_steps, header_steps, name_end_steps, name_steps, data_steps, commit_steps, record_steps};
ghost use Rattle.record.specs.Within.{NameLength};
ghost use Rattle.window.specs.Handed.{Handed, Counts};

use crate::Emitter;
use record::up_8;
use spec::{HIGH, RECORD, Status, WRAP};
use writing::build::four_of;

impl Emitter<'_> {
    // The status byte of the record at this address.
    pub fn status(&mut self, at: usize, status: Status)
        requires at_bound { at ≤ 2 ^ 24 }
        requires counts { Counts self.old 1 }
        ensures { Handed self.old (Step.program (at + 2) status.byte ∷ []) self.new }
    {
        self.program(at + 2, status.byte);
    }

    // A wrap marker at this address.
    pub fn marker(&mut self, at: usize)
        requires at_bound { at ≤ 2 ^ 24 }
        requires counts { Counts self.old 3 }
        ensures { Handed self.old (shifted at marker_steps) self.new }
    {
        self.program_bytes(at, &[WRAP, HIGH, Status::WRAP.byte]);
    }

    // The header of a record with d data bytes, up to its reservation.
    fn header(&mut self, at: usize, d: usize)
        requires at_bound { at ≤ 2 ^ 24 }
        requires counts { Counts self.old 7 }
        ensures { Handed self.old (shifted at (header_steps d)) self.new }
    {
        self.program_bytes(at, &[RECORD, HIGH]);
        self.program_bytes(at + 4, &four_of(d));
        self.status(at, Status::RESERVED);
    }

    // The 00 that ends a name, by way of 80.
    pub fn name_end(&mut self, at: usize)
        requires at_bound { at < 2 ^ 32 }
        requires counts { Counts self.old 2 }
        ensures { Handed self.old (name_end_steps at) self.new }
    {
        self.program_by(at, 0x80);
    }

    // The name and the 00 that ends it.
    fn name(&mut self, at: usize, name: &[u8])
        requires at_bound { (at ≤ 2 ^ 24) × NameLength (length name.now) }
        requires counts { Counts self.old (length name.now + 2) }
        ensures { Handed self.old (shifted at (name_steps name.now)) self.new }
    {
        self.program_bytes(at + 8, name);
        self.name_end(at + (8 + name.len()));
    }

    // All that goes before the data: the record is reserved, and has its name.
    fn opening(&mut self, at: usize, name: &[u8], d: usize)
        requires at_bound { (at ≤ 2 ^ 24) × NameLength (length name.now) }
        requires counts { Counts self.old (length name.now + 9) }
        ensures { Handed self.old (shifted at (header_steps d ++ name_steps name.now)) self.new }
    {
        self.header(at, d);
        self.name(at, name);
    }

    // The data, behind a name of n bytes, and the commit.
    fn closing(&mut self, at: usize, n: usize, content: &[u8])
        requires at_bound { (at ≤ 2 ^ 24) × (n ≤ 63) × (length content.now ≤ 2 ^ 24) }
        requires counts { Counts self.old (length content.now + 1) }
        ensures { Handed self.old (shifted at (data_steps n content.now ++ commit_steps)) self.new }
    {
        self.program_bytes(at + (8 + up_8(n + 1)), content);
        self.status(at, Status::COMMITTED);
    }

    // A whole record. The commit is its last step.
    pub fn record(&mut self, at: usize, name: &[u8], content: &[u8])
        requires at_bound { (at ≤ 2 ^ 24) × NameLength (length name.now) × (length content.now ≤ 2 ^ 24) }
        requires counts { Counts self.old (length name.now + length content.now + 10) }
        ensures { Handed self.old (shifted at (record_steps name.now content.now)) self.new }
    {
        self.opening(at, name, content.len());
        self.closing(at, name.len(), content);
    }
}
