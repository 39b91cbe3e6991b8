// The cursor over the chain: the one place that knows of markers, of the turn and of last things.
ghost use Rattle.std.specs.Prelude.{◌≡◌, true, ◌+◌, ◌-◌, ◌<◌, length, drop};
ghost use Rattle.spec.specs.Bytes.{is_unfinished};
ghost use Rattle.spec.specs.Record.{status_of};
ghost use Rattle.spec.specs.Chain.{allowed};
ghost use Rattle.record.specs.Within.{Within};
ghost use Rattle.spec.specs.declared.Next.{Next};
ghost use Rattle.chain.specs.Cursor.{CursorSound, Inside, start, look, goes_on, turn, torn_end, settle, advance};

use crate::plain::near;
use crate::{Cursor, Item, Spot};
use spec::{Next, Status};

// The cursor at the head h, low being the start of its sector.
pub fn start_at(h: usize, low: usize, length: usize) -> Cursor
    ensures { result ≡ start h low length }
{
    Cursor {
        at: h,
        end: length,
        room: low,
        turned: false,
        pending: false,
    }
}

// Behind an unfinished record only an end may stand.
fn allowed(pending: bool, x: Next) -> Next
    ensures { result ≡ allowed pending x }
{
    match x {
        Next::Record { .. } | Next::Wrap | Next::TornWrap if pending => Next::Bad,
        x => x,
    }
}

fn look(image: &[u8], c: Cursor) -> Next
    requires { CursorSound image.now c }
    ensures { (result ≡ look image.now c) × Within result (c.end - c.at) }
{
    allowed(c.pending, record::next_of(&image[c.at..c.end]))
}

// After a marker, or at the end, the chain goes on at 0 if there is room.
pub fn goes_on(room: usize, x: Next) -> bool
    ensures { result ≡ goes_on room x }
{
    matches!(x, Next::Wrap | Next::Over) && 0 < room
}

pub fn turn(c: Cursor) -> Cursor
    ensures { result ≡ turn c.room c.pending }
{
    Cursor {
        at: 0,
        end: c.room,
        room: 0,
        turned: true,
        pending: c.pending,
    }
}

// A torn marker is legal only where the chain may still turn.
fn torn_end(c: Cursor) -> Item
    ensures { result ≡ torn_end c.room c.turned c.at }
{
    if 0 < c.room {
        return Item::TornWrap { at: c.at };
    }
    Item::Broken {
        at: c.at,
        turned: c.turned,
    }
}

// Whether the record at this address is torn or reserved.
pub fn unfinished(image: &[u8], at: usize) -> bool
    requires { at + 2 < length image.now }
    ensures { result ≡ is_unfinished (status_of (drop at image.now)) }
{
    let status = image[at + 2];
    status == Status::ERASED.byte || status == Status::RESERVED.byte
}

// The record at c, with the cursor past it.
fn record_at(image: &[u8], c: Cursor, n: usize, d: usize) -> Item
    requires { CursorSound image.now c × Within (Next.Record n d) (c.end - c.at) }
    ensures { result ≡ settle image.now c (Next.Record n d) }
{
    Item::Record {
        spot: Spot { at: c.at, n, d },
        next: Cursor {
            at: c.at + record::size(n, d),
            pending: unfinished(image, c.at),
            ..c
        },
    }
}

pub fn settle(image: &[u8], c: Cursor, x: Next) -> Item
    requires { CursorSound image.now c × Within x (c.end - c.at) }
    ensures { result ≡ settle image.now c x }
{
    let (at, turned) = (c.at, c.turned);
    match x {
        Next::Record { n, d } => record_at(image, c, n, d),
        Next::TornWrap => torn_end(c),
        Next::Clear | Next::Over => Item::End { at, turned },
        Next::Wrap | Next::Bad => Item::Broken { at, turned },
    }
}

// What stands at c, whatever it is, the turn made where it is due.
fn advance_any(image: &[u8], c: Cursor) -> Item
    requires { CursorSound image.now c }
    ensures { (result ≡ advance image.now c) × Inside image.now c result }
{
    let x = look(image, c);
    if goes_on(c.room, x) {
        let t = turn(c);
        return settle(image, t, look(image, t));
    }
    settle(image, c, x)
}

// The same: a plain record, as most are, is known by the short way.
pub fn advance(image: &[u8], c: Cursor) -> Item
    requires { CursorSound image.now c }
    ensures { (result ≡ advance image.now c) × Inside image.now c result }
{
    match near(image, c) {
        Some((spot, next)) => Item::Record { spot, next },
        None => advance_any(image, c),
    }
}
