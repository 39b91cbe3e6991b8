// What mount repairs, in its order: the free run, an unfinished move, the last thing, superseded files.
// Each repair reads the image that those before it left, from the head they left.
#![tactic(auto)]

mod finish;
pub mod free;
mod last;
mod sectors;
mod superseded;

ghost use Rattle.std.specs.Prelude.{◌<◌, ◌^◌, length};
ghost use Rattle.flash.specs.Meters.{CanCount, Enough};
ghost use Rattle.recovery.specs.Readable.{Readable};
ghost use Rattle.recovery.specs.Mended.{Mends};
ghost use Rattle.recovery.specs.Counted.{Counted};

use chain::files::count_files;
use finish::finish_move;
use flash::Meter;
use free::erase_free;
use last::void_last;
use moving::NewHead;
use reading::image::{first_cursor, survey};
use spec::Report;
use superseded::drop_superseded;

// The four repairs. The next one reads what those before it left, so none begins once the allowance is used up.
fn repair(image: &mut [u8], head: usize, m: Meter) -> NewHead
    requires readable { Readable image.old head }
    requires can_count { CanCount m (2 ^ 31) }
    requires enough { Enough m }
    ensures mends { Mends image.old head m image.new result.head result.meter }
    ensures head_in_bounds { result.head < length image.old }
{
    let a = erase_free(image, head, m);
    if a.allowance < a.asked {
        return NewHead { head, meter: a };
    }
    let p = finish_move(image, head, a);
    let b = p.meter;
    if b.allowance < b.asked {
        return p;
    }
    let c = void_last(image, p.head, b);
    if c.allowance < c.asked {
        return NewHead {
            head: p.head,
            meter: c,
        };
    }
    let d = drop_superseded(image, p.head, c);
    NewHead {
        head: p.head,
        meter: d,
    }
}

// What is reported of the image that mount leaves, none if the allowance was not enough; and the meter.
#[derive(Clone, Copy)]
pub struct Mended {
    pub report: Option<Report>,
    pub meter: Meter,
}

// Mount, on an image that was read from this head.
pub fn mend(image: &mut [u8], head: usize, m: Meter) -> Mended
    requires readable { Readable image.old head }
    requires can_count { CanCount m (2 ^ 31) }
    requires enough { Enough m }
    ensures { Counted image.old head m image.new result }
{
    let p = repair(image, head, m);
    let meter = p.meter;
    if meter.allowance < meter.asked {
        return Mended {
            report: None,
            meter,
        };
    }
    let report = Report {
        head: p.head,
        tail: survey(image, p.head).place.tail,
        files: count_files(image, first_cursor(image, p.head)),
    };
    Mended {
        report: Some(report),
        meter,
    }
}
