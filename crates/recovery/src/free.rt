// Repair 1: behind a CLEAN head the free run is erased where it isn't FF, and the head becomes START.
ghost use Rattle.std.specs.Prelude.{◌≡◌, false, ◌+◌, ◌*◌, ◌≤◌, length};
ghost use Rattle.spec.specs.Geometry.{ceiling};
ghost use Rattle.spec.specs.Chain.{reading_from};
ghost use Rattle.spec.specs.Mount.{erase_steps};
ghost use Rattle.laws.specs.Length.{InRange};
ghost use Rattle.flash.specs.Did.{Did};
ghost use Rattle.flash.specs.Meters.{CanCount, AskedMost};
ghost use Rattle.chain.specs.FreeLaws.{InImage};
ghost use Rattle.recovery.specs.Readable.{Readable};
ghost use Rattle.planning.specs.Repairs.{steps_1};

use crate::sectors::erase_dirty;
use chain::scan::low_of;
use flash::Meter;
use moving::to_start;
use reading::image::survey;
use record::bytes::is_clean;
use spec::{Place, SECTOR, floor};

// The first start of a sector that is not below a.
pub fn ceiling(a: usize) -> usize
    requires { InRange a }
    ensures value { result ≡ ceiling a }
    ensures in_range { InRange result }
{
    floor(a + (SECTOR - 1))
}

// The sectors that lie wholly in the free run and are not all FF.
fn erase_run(image: &mut [u8], p: Place, m: Meter) -> Meter
    requires in_image { InImage image.old p }
    requires head_le_tail { p.turned ≡ false → p.head ≤ p.tail }
    requires can_count { CanCount m (2 * length image.old) }
    ensures fact { let s = image.old in Did s m (erase_steps s p) image.new result }
    ensures asked_most { AskedMost m result (2 * length image.old) }
{
    let low = floor(p.head);
    let from = ceiling(p.tail);
    if p.turned {
        return erase_dirty(image, from, low, m);
    }
    let a = erase_dirty(image, 0, low, m);
    erase_dirty(image, from, p.length, a)
}

// The repair, on what is read from the head h on.
pub fn erase_free(image: &mut [u8], h: usize, m: Meter) -> Meter
    requires readable { Readable image.old h }
    requires can_count { CanCount m (2 * length image.old + 2) }
    ensures fact { let s = image.old in Did s m (steps_1 s (reading_from s h)) image.new result }
    ensures asked_most { AskedMost m result (2 * length image.old + 2) }
{
    let s = survey(image, h);
    if s.tally.records == 0 {
        return m;
    }
    let low = low_of(image, s.tally.first);
    if is_clean(low) {
        let a = erase_run(image, s.place, m);
        return to_start(image, h, low, a);
    }
    m
}
