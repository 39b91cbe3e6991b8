// Repair 3 handed out: the last thing of the chain, which is torn, reserved or a torn wrap.
ghost use Rattle.std.specs.Prelude.{◌+◌, ◌≤◌, ◌<◌, ◌^◌, length};
ghost use Rattle.spec.specs.Step.{shifted};
ghost use Rattle.spec.specs.Mount.{status_void_steps, torn_steps, missing_steps, reserved_steps, void_steps, last_steps, torn_wrap_steps};
ghost use Rattle.planning.specs.Repairs.{steps_3};
ghost use Rattle.chain.specs.Rest.{entry_of};
ghost use Rattle.chain.specs.Fold.{Whole};
ghost use Rattle.reading.specs.Read.{reading_of, Surveyed};
ghost use Rattle.reading.specs.Survey.{TornInside};
ghost use Rattle.window.specs.Handed.{Handed, Counts};

use chain::Spot;
use reading::Survey;
use spec::{Ending, HIGH, RECORD, Status};
use window::Emitter;

// The status FF or FE of the record at this address becomes 00, by way of the same byte without its top bit.
fn hand_void_status(out: &mut Emitter<'_>, at: usize, status: Status)
    requires { (at ≤ 2 ^ 24) × (0x80 ≤ status.byte) × Counts out.old 2 }
    ensures { Handed out.old (status_void_steps (at + 2) status.byte) out.new }
{
    out.status(at, Status::from_byte(status.byte - 0x80));
    out.status(at, Status::DELETED);
}

// A torn record becomes a dead one with no name and no data: nine steps, always all.
fn hand_torn(out: &mut Emitter<'_>, at: usize)
    requires { (at ≤ 2 ^ 24) × Counts out.old 9 }
    ensures { Handed out.old (shifted at torn_steps) out.new }
{
    out.program_bytes(at, &[RECORD, HIGH]);
    out.program_bytes(at + 4, &[0x00; 5]);
    hand_void_status(out, at, Status::ERASED);
}

// The 00 that ends a name, if it is missing.
fn hand_missing(out: &mut Emitter<'_>, image: &[u8], at: usize)
    requires { (at < length image.now) × (length image.now ≤ 2 ^ 24) × Counts out.old 2 }
    ensures handed { Handed out.old (missing_steps image.now at) out.new }
    ensures passed_bound { out.new.passed ≤ out.old.passed + 2 }
{
    if image[at] != 0x00 {
        out.name_end(at);
    }
}

// A reserved record's name gets an end, and its status goes.
fn hand_reserved(out: &mut Emitter<'_>, image: &[u8], e: Spot)
    requires { Whole image.now e × (length image.now ≤ 2 ^ 24) × Counts out.old 4 }
    ensures handed { Handed out.old (reserved_steps image.now (entry_of image.now e)) out.new }
    ensures passed_bound { out.new.passed ≤ out.old.passed + 4 }
{
    hand_missing(out, image, e.at + (8 + e.n));
    hand_void_status(out, e.at, Status::RESERVED);
}

// A record that is torn, reserved or finished.
fn hand_void(out: &mut Emitter<'_>, image: &[u8], e: Spot)
    requires { Whole image.now e × (length image.now ≤ 2 ^ 24) × Counts out.old 9 }
    ensures handed { Handed out.old (void_steps image.now (entry_of image.now e)) out.new }
    ensures passed_bound { out.new.passed ≤ out.old.passed + 9 }
{
    let status = Status::from_byte(image[e.at + 2]);
    if status == Status::ERASED {
        hand_torn(out, e.at);
    } else if status == Status::RESERVED {
        hand_reserved(out, image, e);
    }
}

// The last of the records that were read.
fn hand_counted(out: &mut Emitter<'_>, image: &[u8], s: Survey)
    requires { Surveyed image.now s × Counts out.old 9 }
    ensures handed { Handed out.old (last_steps image.now (reading_of image.now s).entries) out.new }
    ensures passed_bound { out.new.passed ≤ out.old.passed + 9 }
{
    if s.tally.records > 0 {
        hand_void(out, image, s.tally.last);
    }
}

// A torn wrap marker is written over with all its bytes.
fn hand_wrap(out: &mut Emitter<'_>, n: usize, ending: Ending)
    requires { (n ≤ 2 ^ 24) × TornInside n ending × Counts out.old 3 }
    ensures handed { Handed out.old (torn_wrap_steps ending) out.new }
    ensures passed_bound { out.new.passed ≤ out.old.passed + 3 }
{
    if let Ending::TornWrap { at } = ending {
        out.marker(at);
    }
}

// The repair, on what was read.
pub fn hand_last(out: &mut Emitter<'_>, image: &[u8], s: Survey)
    requires { Surveyed image.now s × TornInside (length image.now) s.ending × Counts out.old 12 }
    ensures handed { Handed out.old (steps_3 image.now (reading_of image.now s)) out.new }
    ensures passed_bound { out.new.passed ≤ out.old.passed + 12 }
{
    hand_counted(out, image, s);
    hand_wrap(out, image.len(), s.ending);
}
