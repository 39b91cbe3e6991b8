// The walk: from the head over headers and names to the end that stops it.
ghost use Rattle.std.specs.Prelude.{◌≡◌, false, ◌<◌, length};
ghost use Rattle.spec.specs.Length.{walked, length_from};
ghost use Rattle.spec.specs.Chain.{reading_from};
ghost use Rattle.laws.specs.Length.{InRange};
ghost use Rattle.chain.specs.Cursor.{CursorSound};
ghost use Rattle.chain.specs.Rest.{rest};
ghost use Rattle.headers.specs.Sizes.{answered, stopped, told};

use crate::Sizes;
use crate::first::{best, no_sizes, noted};
use crate::front::forward;
use crate::stands::stands;
use chain::{Cursor, Item};
use reading::image::first_cursor;
use spec::Refusal;

// The walk ended so: at its end, or at what can't stand there.
fn ended(s: Item, x: Sizes) -> Result<usize, Refusal>
    ensures { answered result ≡ stopped s x }
{
    match s {
        Item::End { .. } => best(x),
        Item::Record { .. } | Item::TornWrap { .. } | Item::Broken { .. } => Err(Refusal::Broken),
    }
}

// Over all records from the cursor on, behind the head; known is what those so far told.
fn walk_on(image: &[u8], start: Cursor, name: &[u8], known: Sizes) -> Result<usize, Refusal>
    requires { CursorSound image.now start × (start.pending ≡ false) }
    ensures { answered result ≡ told name.now known (rest image.now start) }
{
    let mut c = start;
    let mut x = known;
    loop {
        let s = forward(image, c);
        let Item::Record { spot: e, next } = s else {
            return ended(s, x);
        };
        if !stands(image, false, e) {
            return Err(Refusal::Broken);
        }
        x = noted(image, name, x, e);
        c = next;
    }
}

// From the record at the head on.
fn from_head(image: &[u8], h: usize, name: &[u8]) -> Result<usize, Refusal>
    requires { (h < length image.now) × InRange (length image.now) }
    ensures { answered result ≡ walked name.now h (reading_from image.now h) }
{
    let c = first_cursor(image, h);
    let Item::Record { spot: e, next } = forward(image, c) else {
        return Err(Refusal::Broken);
    };
    if e.at != h {
        return Err(Refusal::Broken);
    }
    if !stands(image, true, e) {
        return Err(Refusal::Broken);
    }
    walk_on(image, next, name, noted(image, name, no_sizes(), e))
}

// The length of the file of this name, by the headers and names from the head h on.
pub fn measure(image: &[u8], h: usize, name: &[u8]) -> Result<usize, Refusal>
    requires { InRange (length image.now) }
    ensures { answered result ≡ length_from name.now h image.now }
{
    if h % 8 != 0 {
        return Err(Refusal::Broken);
    }
    if image.len() <= h {
        return Err(Refusal::Broken);
    }
    from_head(image, h, name)
}
