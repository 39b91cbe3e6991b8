// Repair 4 handed out: each F8 record that has an FC record of its name is deleted, in chain order, of the records that repair 2 leaves.
ghost use Rattle.std.specs.Prelude.{◌≡◌, [], ◌∷◌, ◌+◌, ◌*◌, ◌≤◌, length};
ghost use Rattle.planning.specs.Told.{behind};
ghost use Rattle.laws.specs.Settled.{second_marked};
ghost use Rattle.chain.specs.Cursor.{CursorSound, left};
ghost use Rattle.chain.specs.Rest.{entry_of, rest};
ghost use Rattle.chain.specs.Fold.{Whole};
ghost use Rattle.reading.specs.Read.{reading_of, Surveyed};
ghost use Rattle.recovery.specs.Drop.{dropped};
ghost use Rattle.window.specs.Handed.{Handed, Counts};
ghost use Rattle.planner.specs.Superseded.{without_first};

use chain::files::is_superseded;
use chain::scan::marked;
use chain::walk::advance;
use chain::{Cursor, Item, Spot};
use reading::Survey;
use reading::image::first_cursor;
use spec::Status;
use window::Emitter;

// The record at e, if it is such a one of the chain from start on.
fn hand_drop(out: &mut Emitter<'_>, image: &[u8], start: Cursor, e: Spot)
    requires { CursorSound image.now start × Whole image.now e × Counts out.old 1 }
    ensures handed { Handed out.old
        (dropped (rest image.now start).entries (entry_of image.now e ∷ []))
        out.new }
    ensures passed_bound { out.new.passed ≤ out.old.passed + 1 }
{
    if is_superseded(image, start, e) {
        out.status(e.at, Status::DELETED);
    }
}

// The records from the cursor `from` on, as far as they are such ones.
fn hand_drops(out: &mut Emitter<'_>, image: &[u8], start: Cursor, from: Cursor)
    requires { CursorSound image.now start × CursorSound image.now from × Counts out.old (2 * length image.now) }
    ensures { Handed out.old
        (dropped (rest image.now start).entries (rest image.now from).entries)
        out.new }
{
    let mut c = from;
    while let Item::Record { spot, next } = advance(image, c) {
        hand_drop(out, image, start, spot);
        c = next;
    }
}

// Whether the second record is START or CLEAN, so that repair 2 makes it the head.
pub fn leads(image: &[u8], s: Survey) -> bool
    requires { Surveyed image.now s }
    ensures { result ≡ second_marked (reading_of image.now s).entries }
{
    s.tally.records >= 2 && marked(image, s.tally.second)
}

// The cursor behind the first record, if that one goes.
fn behind_first(image: &[u8], start: Cursor, gone: bool) -> Cursor
    requires { CursorSound image.now start }
    ensures { CursorSound image.now result
        × ((rest image.now result).entries ≡ without_first gone (rest image.now start).entries) }
{
    if !gone {
        return start;
    }
    match advance(image, start) {
        Item::Record { next, .. } => next,
        _ => start,
    }
}

// The repair, on what was read.
pub fn hand_superseded(out: &mut Emitter<'_>, image: &[u8], s: Survey)
    requires { Surveyed image.now s × Counts out.old (2 * length image.now) }
    ensures { let es = (reading_of image.now s).entries in
        Handed out.old (dropped es (behind es)) out.new }
{
    let start = first_cursor(image, s.place.head);
    let from = behind_first(image, start, leads(image, s));
    hand_drops(out, image, start, from);
}
