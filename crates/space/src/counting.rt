// What the bytes of the image that a call leaves are good for (02, K3), counted in the first reading: from the live bytes, the place that
// is read then, and the wall, where the wrap marker stands; without one the wall is the image's end. No call reads its chain again for it.
ghost use Rattle.std.specs.Prelude.{◌≡◌, true, false, ◌+◌, ◌-◌, ◌≤◌, ◌^◌, length, Ok};
ghost use Rattle.spec.specs.Basics.{keep, first_such};
ghost use Rattle.spec.specs.Record.{size_of};
ghost use Rattle.spec.specs.Files.{has_name};
ghost use Rattle.spec.specs.Place.{fits};
ghost use Rattle.spec.specs.Placed.{PlaceSound};
ghost use Rattle.spec.specs.Mount.{settled};
ghost use Rattle.spec.specs.Space.{live_bytes, free_bytes, lost_bytes};
ghost use Rattle.laws.specs.Length.{InRange};
ghost use Rattle.planning.specs.Planned.{copied_place};
ghost use Rattle.planning.specs.Told.{behind_place};
ghost use Rattle.planning.specs.Space.{marker_at};
ghost use Rattle.planning.specs.PutCounts.{replaced_bytes};
ghost use Rattle.planning.specs.Walls.{first_wall, put_wall, led_wall, mended_wall, wall_of, space_filled};
ghost use Rattle.chain.specs.FileLaws.{is_file};
ghost use Rattle.chain.specs.Seek.{found_in, FoundWhole};
ghost use Rattle.reading.specs.Read.{reading_of, Surveyed, Quiet, FileTold};
ghost use Rattle.space.specs.Space.{Small, Countable, Counted};

use crate::Count;
use chain::Spot;
use chain::live::live_bytes;
use planner::mount::mended_place;
use planner::place::come_round;
use planner::superseded::leads;
use reading::Survey;
use reading::image::first_cursor;
use record::{size, up_8};
use spec::{Place, Space, floor};

fn free_bytes(p: Place) -> usize
    requires { Small p }
    ensures { (result ≡ free_bytes p) × (result ≤ 2 ^ 25) }
{
    let low = floor(p.head);
    if p.turned {
        low.saturating_sub(p.tail)
    } else {
        p.length.saturating_sub(p.tail) + low
    }
}

fn lost_bytes(p: Place, wall: usize) -> usize
    requires { Small p }
    ensures { (result ≡ lost_bytes p (marker_at p.length wall)) × (result ≤ 2 ^ 25) }
{
    let below = p.head - floor(p.head);
    if wall < p.length {
        return below + p.length.saturating_sub(wall + 8);
    }
    below
}

// All four: what is neither live nor free nor lost is dead.
pub fn filled(live: usize, p: Place, wall: usize) -> Space
    requires { Small p × (live ≤ 2 ^ 26) }
    ensures { result ≡ space_filled live p wall }
{
    let free = free_bytes(p);
    let lost = lost_bytes(p, wall);
    Space {
        live,
        dead: p.length.saturating_sub(live + free + lost),
        free,
        lost,
    }
}

// The wall of a place, with so many bytes in the records at its head or above it.
fn first_wall(p: Place, upper: usize) -> usize
    requires { (p.head ≤ 2 ^ 24) × (upper ≤ 2 ^ 26) }
    ensures { result ≡ first_wall p upper }
{
    if p.turned { p.head + upper } else { p.length }
}

// The wall when the head goes on to y.
pub fn led_wall(length: usize, y: usize, wall: usize) -> usize
    ensures { result ≡ led_wall length y wall }
{
    if y == 0 { length } else { wall }
}

// The wall after a record that goes behind a wrap marker at the tail, or not.
pub fn put_wall(marker: bool, tail: usize, wall: usize) -> usize
    ensures { result ≡ (elim marker [ true ↦ tail | false ↦ wall ]) }
{
    if marker { tail } else { wall }
}

// The wall of what was read. Behind the turn the records end at the tail; all others stand before it.
fn wall_of(image: &[u8], s: Survey) -> usize
    requires { Countable image.now s }
    ensures { result ≡ wall_of (reading_of image.now s) }
{
    let sums = s.tally.sums;
    let upper = (sums.files + sums.others).saturating_sub(s.place.tail);
    first_wall(s.place, upper)
}

// The live bytes of what was read, where no file is superseded, and its wall.
pub fn count(image: &[u8], s: Survey) -> Count
    requires { Countable image.now s × Quiet image.now (Ok s) }
    ensures { Counted image.now s result.live result.wall }
{
    Count {
        live: s.tally.sums.files,
        wall: wall_of(image, s),
    }
}

// The same where a file may be superseded; idle: the image is settled, and none is.
fn count_any(image: &[u8], s: Survey, idle: bool) -> Count
    requires { Countable image.now s × (idle ≡ settled image.now (reading_of image.now s)) }
    ensures { Counted image.now s result.live result.wall }
{
    if idle {
        return count(image, s);
    }
    Count {
        live: live_bytes(image, first_cursor(image, s.place.head)),
        wall: wall_of(image, s),
    }
}

// The wall when the repairs are done.
fn mended_wall(image: &[u8], s: Survey, wall: usize) -> usize
    requires { Surveyed image.now s }
    ensures { result ≡ mended_wall (length image.now) (reading_of image.now s).entries wall }
{
    if leads(image, s) {
        return led_wall(image.len(), s.tally.second.at, wall);
    }
    wall
}

// Of the image that a mount leaves; idle: it has no step to do.
pub fn mount_space(image: &[u8], s: Survey, idle: bool) -> Space
    requires { Countable image.now s × (idle ≡ settled image.now (reading_of image.now s)) }
    ensures { let v = reading_of image.now s in
        result ≡ space_filled (live_bytes v.entries) (behind_place v.place v.entries)
        (mended_wall (length image.now) v.entries (wall_of v)) }
{
    let c = count_any(image, s, idle);
    let p = mended_place(image, s);
    filled(c.live, p, mended_wall(image, s, c.wall))
}

// The size of a record that is there.
fn spot_size(e: Spot) -> usize
    requires { (e.n ≤ 2 ^ 24) × (e.d ≤ 2 ^ 24) }
    ensures { result ≡ size_of e.n e.d }
{
    8 + up_8(e.n + 1) + up_8(e.d)
}

// The size of the file that a put of its name replaces, if there is one.
fn replaced(image: &[u8], f: Option<Spot>) -> usize
    requires { FoundWhole image.now f × InRange (length image.now) }
    ensures { result ≡ replaced_bytes (found_in image.now f) }
{
    match f {
        Some(e) => spot_size(e),
        None => 0,
    }
}

// Of the image that a put of this name and of d data bytes leaves, where there is room; f is the file of the name.
pub fn put_space(image: &[u8], s: Survey, f: Option<Spot>, name: &[u8], d: usize) -> Space
    requires { Countable image.now s × PlaceSound s.place × (length name.now ≤ 64)
        × (fits s.place (size_of (length name.now) d) ≡ true) × Quiet image.now (Ok s) × FileTold image.now
        name.now s f }
    ensures { let v = reading_of image.now s in let z = size_of (length name.now) d in
        result ≡ space_filled ((live_bytes v.entries + z)
        - replaced_bytes (first_such (has_name name.now) (keep is_file v.entries))) (copied_place v.place z)
        (put_wall v.place z (wall_of v)) }
{
    let c = count(image, s);
    let old = replaced(image, f);
    let z = size(name.len(), d);
    let next = s.place.after(z).unwrap();
    filled(
        (c.live + z).saturating_sub(old),
        come_round(next.place),
        put_wall(next.marker, s.place.tail, c.wall),
    )
}
