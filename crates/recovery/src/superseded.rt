// Repair 4: each F8 record that has an FC record of its name is deleted, in chain order.
ghost use Rattle.std.specs.Prelude.{[], ◌∷◌, ◌*◌, length};
ghost use Rattle.spec.specs.Chain.{reading_from};
ghost use Rattle.spec.specs.Mount.{drop_steps};
ghost use Rattle.flash.specs.Did.{Did};
ghost use Rattle.flash.specs.Meters.{CanCount, AskedMost};
ghost use Rattle.chain.specs.Cursor.{CursorSound};
ghost use Rattle.chain.specs.Rest.{entry_of, rest};
ghost use Rattle.chain.specs.Fold.{Whole};
ghost use Rattle.recovery.specs.Readable.{Readable};
ghost use Rattle.recovery.specs.Drop.{dropped};

use chain::files::is_superseded;
use chain::walk::advance;
use chain::{Cursor, Item, Spot};
use flash::Meter;
use reading::image::first_cursor;
use spec::Status;
use writing::build::set_status;

// The record at e, if it is such a one of the chain from start on.
fn drop_one(image: &mut [u8], start: Cursor, e: Spot, m: Meter) -> Meter
    requires cursor_sound { CursorSound image.old start }
    requires whole { Whole image.old e }
    requires can_count { CanCount m 1 }
    ensures fact { let s = image.old in
        Did s m (dropped (rest s start).entries (entry_of s e ∷ [])) image.new result }
    ensures asked_most { AskedMost m result 1 }
{
    if is_superseded(image, start, e) {
        return set_status(image, e.at, Status::DELETED, m);
    }
    m
}

// Deleting one of them doesn't change which others are superseded, nor where the chain goes on.
pub fn drop_superseded(image: &mut [u8], h: usize, m: Meter) -> Meter
    requires readable { Readable image.old h }
    requires can_count { CanCount m (2 * length image.old) }
    ensures { let s = image.old in Did s m (drop_steps (reading_from s h).entries) image.new result }
{
    let start = first_cursor(image, h);
    let mut q = m;
    let mut c = start;
    while let Item::Record { spot, next } = advance(image, c) {
        q = drop_one(image, start, spot, q);
        c = next;
    }
    q
}
