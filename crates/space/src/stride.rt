// Where a sweep would leave head, tail and wrap marker (02, K3): its moves walked along the entry chain, as planner's sweep.rt walks
// them, with no step handed out.
ghost use Rattle.std.specs.Prelude.{◌≡◌, ◌<◌, ◌≤◌, ◌^◌, length, Ok};
ghost use Rattle.std.proofs.Math.Option.{none};
ghost use Rattle.spec.specs.Space.{live_bytes};
ghost use Rattle.planning.specs.Walls.{wall_of, space_filled};
ghost use Rattle.planning.specs.Strides.{stand, strode};
ghost use Rattle.chain.specs.Cursor.{CursorSound};
ghost use Rattle.chain.specs.Rest.{rest};
ghost use Rattle.chain.specs.Fold.{Whole};
ghost use Rattle.reading.specs.Read.{reading_of, Quiet};
ghost use Rattle.space.specs.Space.{Countable};
ghost use Rattle.planner.specs.Moves.{Below, Walkable, Known};
ghost use Rattle.space.specs.Strides.{OverStrode, LiveStrode, StrodeOn};

use crate::Course;
use crate::counting::{count, filled, led_wall, put_wall};
use chain::files::is_live;
use chain::walk::advance;
use chain::{Cursor, Item, Spot};
use planner::Walk;
use planner::place::{come_round, led};
use planner::sweep::{find_next, first_of};
use reading::Survey;
use reading::image::first_cursor;
use record::size;
use spec::{Place, Space};

// (b) to (f), with the place, the first copy and the wall that (a) left: there is no Y, or the head goes on to Y.
fn stride_over(
    image: &[u8],
    past: Cursor,
    place: Place,
    copy: Option<usize>,
    wall: usize,
) -> Option<Course>
    requires { CursorSound image.now past × Below copy (length image.now) × Walkable (length image.now) place }
    ensures { OverStrode image.now past place copy wall result }
{
    let y = find_next(image, past, copy)?;
    Some(Course {
        walk: Walk {
            cursor: past,
            place: led(place, y),
            copy,
        },
        wall: led_wall(image.len(), y, wall),
    })
}

// A live X: its copy, then (b) to (f); without room for it there is no move.
fn stride_live(
    image: &[u8],
    x: Spot,
    past: Cursor,
    place: Place,
    copy: Option<usize>,
    wall: usize,
) -> Option<Course>
    requires cursor_sound { CursorSound image.now past × Whole image.now x × Below copy (length image.now)
        × Walkable (length image.now) place }
    requires n_bound { (x.n ≤ 63) × (x.d < 2 ^ 32) }
    ensures { LiveStrode image.now x past place copy wall result }
{
    let copied = place.after(size(x.n, x.d))?;
    stride_over(
        image,
        past,
        come_round(copied.place),
        first_of(copy, copied.at),
        put_wall(copied.marker, place.tail, wall),
    )
}

// The next move of a sweep, where the entry chain begins at `start`.
fn stride(image: &[u8], start: Cursor, u: Course) -> Option<Course>
    requires { CursorSound image.now start × Known image.now u.walk }
    ensures { StrodeOn image.now (rest image.now start).entries u result }
{
    let Walk {
        cursor,
        place,
        copy,
    } = u.walk;
    let Item::Record {
        spot: x,
        next: past,
    } = advance(image, cursor)
    else {
        return None;
    };
    if is_live(image, start, x) {
        return stride_live(image, x, past, place, copy, u.wall);
    }
    stride_over(image, past, place, copy, u.wall)
}

// Where a sweep of the entry chain that begins at `start` ends, with its place and wall: at most so many moves.
fn strides(image: &[u8], start: Cursor, place: Place, wall: usize, most: usize) -> Course
    requires { CursorSound image.now start × Walkable (length image.now) place }
    ensures { let all = (rest image.now start).entries in
        (stand result.walk.place result.wall ≡ strode most all place wall all none)
        × Walkable (length image.now) result.walk.place }
{
    let mut u = Course {
        walk: Walk {
            cursor: start,
            place,
            copy: None,
        },
        wall,
    };
    for _ in 0..most {
        let Some(next) = stride(image, start, u) else {
            return u;
        };
        u = next;
    }
    u
}

// Of the image that a sweep of at most so many moves leaves.
pub fn sweep_space(image: &[u8], s: Survey, most: usize) -> Space
    requires { Countable image.now s × Walkable (length image.now) s.place × Quiet image.now (Ok s) }
    ensures { let v = reading_of image.now s in
        let q = strode most v.entries v.place (wall_of v) v.entries none in
        result ≡ space_filled (live_bytes v.entries) q.place q.wall }
{
    let c = count(image, s);
    let u = strides(
        image,
        first_cursor(image, s.place.head),
        s.place,
        c.wall,
        most,
    );
    filled(c.live, u.walk.place, u.wall)
}
