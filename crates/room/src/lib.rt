// Put's room rule, in one walk over the chain: the new record, the files of the head's sector and two of the largest, placed one after
// another behind the chain.
#![tactic(auto)]

ghost use Rattle.std.specs.Prelude.{◌≡◌, [], ◌∷◌, ◌≤◌, ◌<◌, ◌^◌, max, length};
ghost use Rattle.spec.specs.Place.{address, in_head_sector, joining};
ghost use Rattle.spec.specs.Placed.{placed};
ghost use Rattle.record.specs.Within.{NameLength};
ghost use Rattle.spec.specs.Files.{has_name};
ghost use Rattle.chain.specs.Cursor.{CursorSound, left};
ghost use Rattle.chain.specs.Rest.{rest, entry_of};
ghost use Rattle.chain.specs.Fold.{Whole, Folded};
ghost use Rattle.chain.specs.FileLaws.{is_file};
ghost use Rattle.reading.specs.Read.{reading_of};
ghost use Rattle.room.specs.Stows.{stow, stow_all};
ghost use Rattle.room.specs.Room.{Unsuperseded, room_in, others, with_size, larger, stow_files, stow_of, last_fit};

use chain::files::{has_name, is_file};
use chain::plain::near;
use chain::walk::advance;
use chain::{Cursor, Item, Spot};
use reading::Survey;
use reading::image::first_cursor;
use record::size;
use spec::{Place, Placement, floor};

// Where the last size was placed, and the largest size so far.
#[derive(Clone, Copy)]
struct Stowed {
    placed: Option<Placement>,
    largest: usize,
}

// That, of the records before a cursor.
#[derive(Clone, Copy)]
struct Farther {
    cursor: Cursor,
    stowed: Stowed,
}

// A further size, behind what was placed.
fn stow(placed: Option<Placement>, size: usize) -> Option<Placement>
    ensures { result ≡ stow placed size }
{
    placed?.place.after(size)
}

// Whether an address lies in the head's sector.
fn in_head_sector(place: Place, at: usize) -> bool
    ensures { result ≡ in_head_sector place at }
{
    floor(at) == floor(place.head)
}

// A file that stays: placed if it begins in the head's sector, and compared with the largest.
fn stow_file(place: Place, at: usize, size: usize, stowed: Stowed) -> Stowed
    ensures { result ≡ with_size (in_head_sector place at) size stowed }
{
    let largest = stowed.largest.max(size);
    if in_head_sector(place, at) {
        let next = stow(stowed.placed, size);
        return Stowed {
            placed: next,
            largest,
        };
    }
    Stowed { largest, ..stowed }
}

// The same for a record of the chain, if it is a file of another name.
fn stow_record(image: &[u8], place: Place, e: Spot, name: &[u8], stowed: Stowed) -> Stowed
    requires { Whole image.now e × (e.n < 64) × (e.d < 2 ^ 32) }
    ensures { result ≡ stow_files place stowed (others name.now (entry_of image.now e ∷ [])) }
{
    if is_file(image, e) {
        if has_name(image, e, name) {
            return stowed;
        }
        return stow_file(place, e.at, size(e.n, e.d), stowed);
    }
    stowed
}

// The largest size, with that of a record: it counts if the record is a file of another name. Only a larger one is looked at.
fn larger(image: &[u8], x: Spot, name: &[u8], size: usize, largest: usize) -> usize
    requires { Whole image.now x }
    ensures { result
        ≡ larger (is_file (entry_of image.now x)) (has_name name.now (entry_of image.now x))
        size largest }
{
    if size <= largest {
        return largest;
    }
    if is_file(image, x) {
        if has_name(image, x, name) {
            return largest;
        }
        return size;
    }
    largest
}

fn stowed_at(cursor: Cursor, first: Stowed, largest: usize) -> Farther
    ensures { result ≡ record { cursor = cursor; stowed = record { placed = first.placed; largest = largest } } }
{
    Farther {
        cursor,
        stowed: Stowed { largest, ..first },
    }
}

// Over plain records from the cursor on, up to one that begins in the head's sector: nothing is placed, only the largest size moves.
fn stow_far(image: &[u8], start: Cursor, place: Place, name: &[u8], first: Stowed) -> Farther
    requires { CursorSound image.now start }
    ensures { Folded (stow_of place name.now) image.now start first result.cursor result.stowed
        × (left result.cursor ≤ left start) }
{
    let mut c = start;
    let mut largest = first.largest;
    while let Some((e, next)) = near(image, c) {
        if in_head_sector(place, e.at) {
            break;
        }
        largest = larger(image, e, name, size(e.n, e.d), largest);
        c = next;
    }
    stowed_at(c, first, largest)
}

// All files that stay, in the order of the chain.
fn stow_chain(image: &[u8], start: Cursor, place: Place, name: &[u8], first: Stowed) -> Stowed
    requires { CursorSound image.now start }
    ensures { result ≡ stow_files place first (others name.now (rest image.now start).entries) }
{
    let mut c = start;
    let mut stowed = first;
    loop {
        let f = stow_far(image, c, place, name, stowed);
        let Item::Record { spot: e, next } = advance(image, f.cursor) else {
            return f.stowed;
        };
        stowed = stow_record(image, place, e, name, f.stowed);
        c = next;
    }
}

// The new record, which got this address, once more if it begins in the head's sector.
fn stow_new(place: Place, at: usize, size: usize, placed: Option<Placement>) -> Option<Placement>
    requires { at ≡ address place size }
    ensures { result ≡ stow_all placed (joining place size) }
{
    if in_head_sector(place, at) {
        return stow(placed, size);
    }
    placed
}

// The rule's end: the new record once more if it begins in the head's sector, and then two of the largest.
fn has_last(place: Place, at: usize, size: usize, stowed: Stowed) -> bool
    requires { at ≡ address place size }
    ensures { result ≡ last_fit place size stowed }
{
    let largest = stowed.largest;
    let new = stow_new(place, at, size, stowed.placed);
    stow(stow(new, largest), largest).is_some()
}

// Whether there is room for a file of this name with d data bytes, where nothing is superseded.
// Content that is longer than the image is refused before its size is computed.
pub fn has_room(image: &[u8], s: Survey, name: &[u8], d: usize) -> bool
    requires { Unsuperseded image.now s × NameLength (length name.now) }
    ensures { result ≡ room_in (reading_of image.now s) name.now d }
{
    let place = s.place;
    if place.length < d {
        return false;
    }
    let new = size(name.len(), d);
    let first = place.after(new);
    let Some(x) = first else {
        return false;
    };
    let alone = Stowed {
        placed: first,
        largest: new,
    };
    let stowed = stow_chain(image, first_cursor(image, place.head), place, name, alone);
    has_last(place, x.at, new, stowed)
}
