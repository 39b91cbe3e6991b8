// A sweep's moves by the entry chain, handed out: X is its next record, Y the one behind it or, behind the last, the first copy.
ghost use Rattle.std.specs.Prelude.{◌≡◌, true, ◌+◌, ◌*◌, ◌<◌, ◌≤◌, ◌^◌, length};
ghost use Rattle.std.proofs.Math.Option.{none, some};
ghost use Rattle.spec.specs.Record.{name_of, content_of, size_of};
ghost use Rattle.spec.specs.Place.{fits};
ghost use Rattle.spec.specs.Write.{put_steps};
ghost use Rattle.planning.specs.Planned.{next_of, walked};
ghost use Rattle.record.specs.Within.{NameLength};
ghost use Rattle.chain.specs.Cursor.{CursorSound};
ghost use Rattle.chain.specs.Rest.{entry_of, rest};
ghost use Rattle.chain.specs.Fold.{Whole};
ghost use Rattle.window.specs.Handed.{Handed, Counts};
ghost use Rattle.planner.specs.Walk.{copy_entry, address_of, first_of, over_steps};
ghost use Rattle.planner.specs.Moves.{Below, Walkable, Known, OverHanded, LiveHanded, MoveHanded};
ghost use Rattle.planner.specs.Sweep.{MovesHanded};

use crate::Walk;
use crate::close::hand_close;
use crate::place::{come_round, led};
use chain::files::is_live;
use chain::walk::advance;
use chain::{Cursor, Item, Spot};
use record::{size, up_8};
use spec::{CLEAN, Place, Placement, Status};
use window::Emitter;
use writing::OldFile;

// The first copy that is made, with one at this address.
pub fn first_of(c: Option<usize>, at: usize) -> Option<usize>
    ensures { result ≡ first_of c at }
{
    c.or(Some(at))
}

// Where Y stands, if there is one: at the cursor behind X, or the first copy.
pub fn find_next(image: &[u8], past: Cursor, copy: Option<usize>) -> Option<usize>
    requires { CursorSound image.now past × Below copy (length image.now) }
    ensures { let s = image.now in
        (result ≡ address_of (next_of (rest s past).entries (copy_entry copy))) × Below result (length s) }
{
    match advance(image, past) {
        Item::Record { spot, .. } => Some(spot.at),
        _ => copy,
    }
}

// (b) to (f), with Y at this address.
fn hand_next(out: &mut Emitter<'_>, image: &[u8], x: Spot, y: usize)
    requires whole { Whole image.now x × (y < length image.now) × (length image.now ≤ 2 ^ 24) }
    requires counts { Counts out.old (2 * length image.now + 4) }
    ensures handed { Handed out.old (over_steps (length image.now) (entry_of image.now x) y) out.new }
    ensures passed_bound { out.new.passed ≤ out.old.passed + (2 * length image.now + 4) }
{
    out.program(y, CLEAN);
    hand_close(out, image, x, y, CLEAN);
}

// (b) to (f) of X, with the place and the first copy that (a) left: there is no Y, or the place at Y.
fn hand_over(
    out: &mut Emitter<'_>,
    image: &[u8],
    x: Spot,
    past: Cursor,
    place: Place,
    copy: Option<usize>,
) -> Option<Walk>
    requires cursor_sound { CursorSound image.now past × Whole image.now x × Below copy (length image.now)
        × Walkable (length image.now) place }
    requires passed_bound { out.old.passed ≤ 2 ^ 31 }
    ensures { OverHanded image.now x past place copy out.old out.new result }
{
    let y = find_next(image, past, copy)?;
    hand_next(out, image, x, y);
    Some(Walk {
        cursor: past,
        place: led(place, y),
        copy,
    })
}

// (a) X copied to its place.
fn hand_copy(out: &mut Emitter<'_>, image: &[u8], x: Spot, place: Place)
    requires whole { Whole image.now x × NameLength x.n × Walkable (length image.now) place
        × (fits place (size_of x.n x.d) ≡ true) }
    requires passed_bound { out.old.passed ≤ 2 ^ 31 }
    ensures fact { let e = entry_of image.now x in
        Handed out.old (put_steps place (some e) (name_of e) (content_of e)) out.new }
    ensures passed_bound_2 { out.new.passed ≤ out.old.passed + 2 ^ 25 }
{
    let at = x.at;
    let name = at + 8;
    let content = name + up_8(x.n + 1);
    let old = OldFile {
        at,
        status: Status::from_byte(image[at + 2]),
    };
    out.file(
        place,
        Some(old),
        &image[name..name + x.n],
        &image[content..content + x.d],
    );
}

// A live X: its copy, then (b) to (f); without room for it there is no move.
fn hand_live(
    out: &mut Emitter<'_>,
    image: &[u8],
    x: Spot,
    past: Cursor,
    place: Place,
    copy: Option<usize>,
) -> Option<Walk>
    requires cursor_sound { CursorSound image.now past × Whole image.now x × Below copy (length image.now)
        × Walkable (length image.now) place }
    requires name_length { NameLength x.n × (x.d < 2 ^ 32) × (out.old.passed ≤ 2 ^ 30) }
    ensures { LiveHanded image.now x past place copy out.old out.new result }
{
    let copied = place.after(size(x.n, x.d))?;
    hand_copy(out, image, x, place);
    hand_over(
        out,
        image,
        x,
        past,
        come_round(copied.place),
        first_of(copy, copied.at),
    )
}

// The next move of a sweep, where the entry chain begins at `start`.
fn hand_move(out: &mut Emitter<'_>, image: &[u8], start: Cursor, v: Walk) -> Option<Walk>
    requires cursor_sound { CursorSound image.now start × Known image.now v }
    requires passed_bound { out.old.passed ≤ 2 ^ 30 }
    ensures { MoveHanded image.now (rest image.now start).entries v out.old out.new result }
{
    let Item::Record {
        spot: x,
        next: past,
    } = advance(image, v.cursor)
    else {
        return None;
    };
    if is_live(image, start, x) {
        return hand_live(out, image, x, past, v.place, v.copy);
    }
    hand_over(out, image, x, past, v.place, v.copy)
}

// The sweep of the entry chain that begins at `start`, with its place: at most so many moves. It answers how many they were.
pub fn hand_sweep(
    out: &mut Emitter<'_>,
    image: &[u8],
    start: Cursor,
    place: Place,
    most: usize,
) -> usize
    requires { CursorSound image.now start × Walkable (length image.now) place × (most ≤ 5) × (out.old.passed ≡ 0) }
    ensures { let s = image.now in let all = (rest s start).entries in
        MovesHanded out.old (walked most all place all none) result out.new }
{
    let mut v = Walk {
        cursor: start,
        place,
        copy: None,
    };
    for n in 0..most {
        let Some(next) = hand_move(out, image, start, v) else {
            return n;
        };
        v = next;
    }
    most
}
