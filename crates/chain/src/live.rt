// How many bytes of the chain are live, where a file may be superseded; else the tally tells.
ghost use Rattle.std.specs.Prelude.{◌≡◌, ◌+◌, ◌≤◌, ◌^◌};
ghost use Rattle.spec.specs.Space.{live_bytes};
ghost use Rattle.chain.specs.Cursor.{CursorSound, left};
ghost use Rattle.chain.specs.Rest.{rest};
ghost use Rattle.chain.specs.Sums.{added};

use crate::files::is_live;
use crate::walk::advance;
use crate::{Cursor, Item};
use record::size;

// The sum so far, with this size if it counts.
fn added(sum: usize, size: usize, counts: bool) -> usize
    requires { sum + size ≤ 2 ^ 34 }
    ensures { result ≡ added sum size counts }
{
    if counts {
        return sum + size;
    }
    sum
}

// The sizes of the live records from the cursor on.
pub fn live_bytes(image: &[u8], start: Cursor) -> usize
    requires { CursorSound image.now start }
    ensures { (result ≡ live_bytes (rest image.now start).entries) × (result ≤ left start) }
{
    let mut c = start;
    let mut live = 0;
    while let Item::Record { spot: e, next } = advance(image, c) {
        live = added(live, size(e.n, e.d), is_live(image, start, e));
        c = next;
    }
    live
}
