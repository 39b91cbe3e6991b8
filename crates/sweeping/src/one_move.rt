// One move: the head's record copied if it is live, then the head handed over to the record behind it.
ghost use Rattle.std.specs.Prelude.{◌≡◌, ◌+◌, ◌*◌, ◌^◌, length, get_or};
ghost use Rattle.spec.specs.Chain.{reading_from};
ghost use Rattle.spec.specs.Sweep.{no_room};
ghost use Rattle.flash.specs.Did.{Did};
ghost use Rattle.flash.specs.Meters.{CanCount, AskedMost};
ghost use Rattle.sweeping.specs.MoveSteps.{copying};
ghost use Rattle.reading.specs.Standing.{Led};
ghost use Rattle.sweeping.specs.Planned.{PlaceOf, Planned, Going};
ghost use Rattle.sweeping.specs.Handed.{Handed};
ghost use Rattle.sweeping.specs.WholeMove.{MoveMade};

use crate::Plan;
use chain::Item;
use chain::files::is_live;
use chain::walk::advance;
use flash::Meter;
use moving::copy::copy_head;
use moving::{NewHead, close, to_clean};
use reading::image::first_cursor;
use record::size;
use spec::{CLEAN, Place, Placement};

// A live head moves if its copy fits, a dead one if a record stands behind it.
pub fn plan(image: &[u8], place: Place) -> Plan
    requires { PlaceOf image.now place }
    ensures { Planned image.now place result }
{
    let start = first_cursor(image, place.head);
    let Item::Record {
        spot: x,
        next: past,
    } = advance(image, start)
    else {
        return Plan::Stop { full: false };
    };
    if is_live(image, start, x) {
        if place.after(size(x.n, x.d)).is_none() {
            return Plan::Stop { full: true };
        }
        return Plan::Copy { n: x.n, d: x.d };
    }
    let Item::Record { .. } = advance(image, past) else {
        return Plan::Stop { full: false };
    };
    Plan::Leave
}

// The head's record is live and does not fit.
pub fn no_room(image: &[u8], place: Place) -> bool
    requires { PlaceOf image.now place }
    ensures { let v = reading_from image.now place.head in result ≡ no_room v v.entries }
{
    match plan(image, place) {
        Plan::Stop { full } => full,
        _ => false,
    }
}

// Step (a).
fn copy(image: &mut [u8], place: Place, plan: Plan, m: Meter) -> Meter
    requires place_of { PlaceOf image.old place }
    requires going { Going image.old place plan }
    requires can_count { CanCount m (2 ^ 31) }
    ensures fact { let s = image.old in Did s m (copying s place.head) image.new result }
    ensures asked_most { AskedMost m result (length image.old + 15) }
    ensures head_unchanged { get_or image.new place.head 0 ≡ get_or image.old place.head 0 }
{
    match plan {
        Plan::Copy { n, d } => copy_head(image, place, n, d, m),
        _ => m,
    }
}

// Steps (b) to (f), of the first two records from the head on; with fewer there is nothing to do.
fn hand_over(image: &mut [u8], head: usize, m: Meter) -> NewHead
    requires led { Led image.old head }
    requires can_count { CanCount m (2 * length image.old + 4) }
    ensures { Handed image.old head m image.new result }
{
    let Item::Record {
        spot: x,
        next: past,
    } = advance(image, first_cursor(image, head))
    else {
        return NewHead { head, meter: m };
    };
    let Item::Record { spot: y, .. } = advance(image, past) else {
        return NewHead { head, meter: m };
    };
    let a = to_clean(image, y, m);
    let b = close(image, x, y, CLEAN, a);
    NewHead {
        head: y.at,
        meter: b,
    }
}

// The whole move. Y may be X's own copy, so that it is looked for only after the copy is done.
pub fn move_head(image: &mut [u8], place: Place, plan: Plan, m: Meter) -> NewHead
    requires place_of { PlaceOf image.old place }
    requires going { Going image.old place plan }
    requires can_count { CanCount m (2 ^ 31) }
    ensures { MoveMade image.old place.head m image.new result }
{
    let a = copy(image, place, plan, m);
    if a.allowance < a.asked {
        return NewHead {
            head: place.head,
            meter: a,
        };
    }
    hand_over(image, place.head, a)
}
