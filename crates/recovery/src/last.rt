// Repair 3: the last thing of the chain, which is torn, reserved or a torn wrap.
ghost use Rattle.std.specs.Prelude.{◌+◌, ◌<◌, length};
ghost use Rattle.spec.specs.Step.{shifted};
ghost use Rattle.spec.specs.Chain.{reading_from};
ghost use Rattle.spec.specs.Mount.{torn_steps, missing_steps, reserved_steps, void_steps, last_steps, torn_wrap_steps};
ghost use Rattle.flash.specs.Did.{Did};
ghost use Rattle.flash.specs.Meters.{CanCount, AskedMost};
ghost use Rattle.chain.specs.Rest.{entry_of, rest};
ghost use Rattle.chain.specs.Fold.{Whole};
ghost use Rattle.reading.specs.Read.{Tallied, first_cursor};
ghost use Rattle.reading.specs.Survey.{TornInside};
ghost use Rattle.recovery.specs.Readable.{Readable};
ghost use Rattle.planning.specs.Repairs.{steps_3};

use chain::{Spot, Tally};
use flash::{Meter, program, program_bytes};
use reading::image::survey;
use spec::{Ending, HIGH, RECORD, Status};
use writing::build::{void_status, write_end, write_marker};

// A torn record becomes a dead one with no name and no data: nine steps, always all.
fn build_void(part: &mut [u8], m: Meter) -> Meter
    requires in_bounds { 8 < length part.old }
    requires can_count { CanCount m 9 }
    ensures { Did part.old m torn_steps part.new result }
{
    let zeros = [0u8; 5];
    let a = program(part, 0, RECORD, m);
    let b = program(part, 1, HIGH, a);
    let c = program_bytes(part, 4, &zeros, b);
    void_status(part, 0, Status::ERASED, c)
}

// The image from the torn record's start on is lent to the function above.
fn void_torn(image: &mut [u8], at: usize, m: Meter) -> Meter
    requires at_in_bounds { at + 8 < length image.old }
    requires can_count { CanCount m 9 }
    ensures { Did image.old m (shifted at torn_steps) image.new result }
{
    build_void(&mut image[at..], m)
}

// The 00 that ends a name, if it is missing.
fn end_name(image: &mut [u8], at: usize, m: Meter) -> Meter
    requires at_in_bounds { at < length image.old }
    requires can_count { CanCount m 2 }
    ensures fact { let s = image.old in Did s m (missing_steps s at) image.new result }
    ensures asked_most { AskedMost m result 2 }
{
    if image[at] == 0x00 {
        return m;
    }
    write_end(image, at, m)
}

// A reserved record's name gets an end, and its status goes.
fn void_reserved(image: &mut [u8], e: Spot, m: Meter) -> Meter
    requires whole { Whole image.old e }
    requires can_count { CanCount m 4 }
    ensures fact { let s = image.old in Did s m (reserved_steps s (entry_of s e)) image.new result }
    ensures asked_most { AskedMost m result 4 }
{
    let a = end_name(image, e.at + (8 + e.n), m);
    void_status(image, e.at, Status::RESERVED, a)
}

// A record that is torn, reserved or finished.
fn void_record(image: &mut [u8], e: Spot, m: Meter) -> Meter
    requires whole { Whole image.old e }
    requires can_count { CanCount m 9 }
    ensures fact { let s = image.old in Did s m (void_steps s (entry_of s e)) image.new result }
    ensures asked_most { AskedMost m result 9 }
{
    let status = image[e.at + 2];
    if status == Status::ERASED.byte {
        return void_torn(image, e.at, m);
    }
    if status == Status::RESERVED.byte {
        return void_reserved(image, e, m);
    }
    m
}

// The last of the records that the tally counts.
fn void_counted(image: &mut [u8], t: Tally, h: usize, m: Meter) -> Meter
    requires tallied { Tallied image.old (first_cursor image.old h) t }
    requires can_count { CanCount m 9 }
    ensures fact { let s = image.old in
        Did s m (last_steps s (rest s (first_cursor s h)).entries) image.new result }
    ensures asked_most { AskedMost m result 9 }
{
    if t.records == 0 {
        return m;
    }
    void_record(image, t.last, m)
}

// A torn wrap marker is written over with all its bytes.
fn finish_wrap(image: &mut [u8], ending: Ending, m: Meter) -> Meter
    requires torn_inside { TornInside (length image.old) ending }
    requires can_count { CanCount m 3 }
    ensures did { Did image.old m (torn_wrap_steps ending) image.new result }
    ensures asked_most { AskedMost m result 3 }
{
    match ending {
        Ending::TornWrap { at } => write_marker(image, at, m),
        _ => m,
    }
}

// The repair, on what is read from the head h on.
pub fn void_last(image: &mut [u8], h: usize, m: Meter) -> Meter
    requires readable { Readable image.old h }
    requires can_count { CanCount m 12 }
    ensures fact { let s = image.old in Did s m (steps_3 s (reading_from s h)) image.new result }
    ensures asked_most { AskedMost m result 12 }
{
    let s = survey(image, h);
    let a = void_counted(image, s.tally, h, m);
    finish_wrap(image, s.ending, a)
}
