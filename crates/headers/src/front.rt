// What stands at a cursor, without a look at the data: a torn wrap marker is refused by its header.
ghost use Rattle.std.specs.Prelude.{◌≡◌, ◌-◌};
ghost use Rattle.record.specs.Within.{Within, AtFront};
ghost use Rattle.chain.specs.Cursor.{CursorSound, Inside};
ghost use Rattle.headers.specs.Fore.{untorn_next, fore_look, fore};

use chain::walk::{goes_on, settle, turn};
use chain::{Cursor, Item};
use record::bytes::is_torn_marker;
use record::next_of;
use spec::{Next, Status};

// What stands at the front of the part; a torn wrap marker, whatever follows it, is Bad here.
fn front_of(part: &[u8]) -> Next
    ensures { AtFront untorn_next part.now result }
{
    if 8 <= part.len() && is_torn_marker(part[0], part[1], Status::from_byte(part[2])) {
        return Next::Bad;
    }
    next_of(part)
}

fn look(image: &[u8], c: Cursor) -> Next
    requires { CursorSound image.now c }
    ensures { (result ≡ fore_look image.now c) × Within result (c.end - c.at) }
{
    front_of(&image[c.at..c.end])
}

// What stands at c, the turn made where it is due. chain's `advance_any` has these lines over another `look`: a contract for one function
// over both would have to say what `look` gives at two cursors, and be longer than they are.
pub fn forward(image: &[u8], c: Cursor) -> Item
    requires { CursorSound image.now c }
    ensures { (result ≡ fore image.now c) × Inside image.now c result }
{
    let x = look(image, c);
    if goes_on(c.room, x) {
        let t = turn(c);
        return settle(image, t, look(image, t));
    }
    settle(image, c, x)
}
