// Repair 2: a move that was cut is brought to its end, with the second record as the head.
ghost use Rattle.std.specs.Prelude.{◌≡◌, ◌+◌, ◌*◌, ◌<◌, length};
ghost use Rattle.flash.specs.Meters.{CanCount, AskedMost};
ghost use Rattle.recovery.specs.Readable.{Readable};
ghost use Rattle.recovery.specs.Pair.{MoveFinished};

use chain::scan::low_of;
use flash::{Meter, program};
use moving::{NewHead, close};
use reading::image::survey;
use record::bytes::is_clean;
use spec::START;

// The head that the repair leaves, with the meter.
fn at_head(head: usize, meter: Meter) -> NewHead
    ensures { result ≡ record { head = head; meter = meter } }
{
    NewHead { head, meter }
}

// The repair, on what is read from the head h on: a second record CLEAN, START, or neither.
pub fn finish_move(image: &mut [u8], h: usize, m: Meter) -> NewHead
    requires readable { Readable image.old h }
    requires can_count { CanCount m (2 * length image.old + 3) }
    ensures move_finished { MoveFinished image.old h m image.new result.head result.meter }
    ensures asked_most { AskedMost m result.meter (2 * length image.old + 3) }
    ensures head_in_bounds { result.head < length image.old }
{
    let t = survey(image, h).tally;
    if t.records < 2 {
        return at_head(h, m);
    }
    let x = t.first;
    let y = t.second;
    let low = low_of(image, y);
    if is_clean(low) {
        return at_head(y.at, close(image, x, y, low, m));
    }
    if low == START {
        return at_head(y.at, program(image, x.at + 1, 0x00, m));
    }
    at_head(h, m)
}
