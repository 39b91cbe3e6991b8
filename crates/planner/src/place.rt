// The place that is read after a copy, and after the head has moved on: nothing is read again.
ghost use Rattle.std.specs.Prelude.{◌≡◌};
ghost use Rattle.planning.specs.Planned.{come_round, led_place};

use spec::{Place, floor};

// A tail at the image's end before the turn is read as 0 after it, where sectors lie below the head's.
pub fn come_round(p: Place) -> Place
    ensures { result ≡ come_round p }
{
    if !p.turned && p.tail == p.length && floor(p.head) > 0 {
        return Place {
            tail: 0,
            turned: true,
            ..p
        };
    }
    p
}

// With Y at this address as the head; with Y at 0 the turn lies behind it.
pub fn led(p: Place, y: usize) -> Place
    ensures { result ≡ led_place p y }
{
    come_round(Place {
        head: y,
        turned: p.turned && y != 0,
        ..p
    })
}
