// Format: every sector erased, then the first record.
ghost use Rattle.std.specs.Prelude.{◌+◌, ◌-◌, ◌≤◌, length};
ghost use Rattle.spec.specs.Write.{first_steps, format_steps};
ghost use Rattle.laws.specs.Length.{InRange};
ghost use Rattle.flash.specs.Did.{Did};
ghost use Rattle.flash.specs.Meters.{CanCount};

use crate::build::set_status;
use flash::{Meter, erase_sectors, program, program_bytes};
use spec::{HIGH, START, Status};

// The first record: deleted and without a name. Its START comes last, so that a cut before it leaves no head.
fn write_first(image: &mut [u8], m: Meter) -> Meter
    requires in_bounds { 9 ≤ length image.old }
    requires can_count { CanCount m 8 }
    ensures { Did image.old m first_steps image.new result }
{
    let zeros = [0u8; 5];
    let a = program_bytes(image, 4, &zeros, m);
    let b = set_status(image, 0, Status::DELETED, a);
    let c = program(image, 0, START, b);
    program(image, 1, HIGH, c)
}

// Format's steps.
pub fn format_image(image: &mut [u8], m: Meter) -> Meter
    requires { (9 ≤ length image.old) × InRange (length image.old) × CanCount m (length image.old + 8) }
    ensures { Did image.old m (format_steps (length image.old)) image.new result }
{
    let end = image.len();
    let a = erase_sectors(image, 0, end, m);
    write_first(image, a)
}
