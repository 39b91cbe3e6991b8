// Up to five moves, one after another.
ghost use Rattle.std.specs.Prelude.{◌≡◌, ◌≤◌, ◌^◌, min};
ghost use Rattle.spec.specs.Chain.{reading_from};
ghost use Rattle.spec.specs.Sweep.{moves};
ghost use Rattle.flash.specs.Meters.{CanCount};
ghost use Rattle.sweeping.specs.Moves.{Moves};
ghost use Rattle.sweeping.specs.Planned.{PlaceOf};
ghost use Rattle.sweeping.specs.Sweeping.{MoveEnded};

use crate::one_move::{move_head, plan};
use crate::{MoveEnd, Plan, Swept};
use flash::Meter;
use moving::NewHead;
use reading::image::survey;
use spec::Place;

// One move, if there is one, and the place that it leaves; a move that was cut leaves none to go on from.
fn next_move(image: &mut [u8], place: Place, m: Meter) -> MoveEnd
    requires place_of { PlaceOf image.old place }
    requires can_count { CanCount m (2 ^ 31) }
    ensures { MoveEnded image.old place.head m image.new result }
{
    let p = plan(image, place);
    if let Plan::Stop { .. } = p {
        return MoveEnd::Stuck;
    }
    let NewHead { head, meter } = move_head(image, place, p, m);
    if meter.allowance < meter.asked {
        return MoveEnd::Cut { meter };
    }
    MoveEnd::Done {
        place: survey(image, head).place,
        meter,
    }
}

// The moves of a sweep at most.
const MOST: usize = 5;

pub fn at_most(n: usize) -> usize
    ensures { result ≡ min 5 n }
{
    n.min(MOST)
}

// The sweep of an image with this many records. Only finished moves are counted.
pub fn sweep(image: &mut [u8], place: Place, records: usize, m: Meter) -> Swept
    requires place_of { PlaceOf image.old place }
    requires asked_bound { m.asked ≤ 2 ^ 16 }
    ensures { let s = image.old in
        Moves s m (moves (min 5 records) s (reading_from s place.head)) image.new result.moves result.meter }
{
    let most = at_most(records);
    let mut p = place;
    let mut q = m;
    for n in 0..most {
        match next_move(image, p, q) {
            MoveEnd::Stuck => return Swept { moves: n, meter: q },
            MoveEnd::Cut { meter } => return Swept { moves: n, meter },
            MoveEnd::Done { place, meter } => {
                p = place;
                q = meter;
            }
        }
    }
    Swept {
        moves: most,
        meter: q,
    }
}
