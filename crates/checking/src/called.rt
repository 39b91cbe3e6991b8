// The name of the record at which the chain breaks off: it counts as any other, though its record does not end where it may.
ghost use Rattle.std.specs.Prelude.{◌≡◌};
ghost use Rattle.chain.specs.Cursor.{CursorSound};
ghost use Rattle.chain.specs.Rest.{rest, entry_of};
ghost use Rattle.chain.specs.Fold.{Whole};
ghost use Rattle.checking.specs.Called.{is_called, called, migrating_wrong, cut_wrong};

use chain::files::{has_name, named};
use chain::walk::advance;
use chain::{Cursor, Item, Spot};
use record::name::name_ok;
use spec::Status;

// Whether e has this status and this name.
#[tactic(auto, unfolding(crate::specs::Called::is_called))]
fn is_called(image: &[u8], status: Status, name: &[u8], e: Spot) -> bool
    requires { Whole image.now e }
    ensures { result ≡ is_called status.byte name.now (entry_of image.now e) }
{
    named(image, status, e) && has_name(image, e, name)
}

// Whether a record from start on has them.
fn called(image: &[u8], start: Cursor, status: Status, name: &[u8]) -> bool
    requires { CursorSound image.now start }
    ensures { result ≡ called status.byte (rest image.now start).entries name.now }
{
    let mut c = start;
    while let Item::Record { spot, next } = advance(image, c) {
        if is_called(image, status, name, spot) {
            return true;
        }
        c = next;
    }
    false
}

// Whether a record of this status with this name, behind all records from start on, breaks a rule on names.
#[tactic(auto, unfolding(crate::specs::Called::cut_wrong))]
pub fn cut_wrong(image: &[u8], start: Cursor, status: u8, name: &[u8]) -> bool
    requires { CursorSound image.now start }
    ensures { result ≡ cut_wrong (rest image.now start).entries status name.now }
{
    if name.is_empty() {
        return false;
    }
    if status == Status::COMMITTED.byte {
        return called(image, start, Status::COMMITTED, name) || !name_ok(name);
    }
    status == Status::MIGRATING.byte && migrating_wrong(image, start, name)
}

// The same of an F8 record.
#[tactic(auto, unfolding(crate::specs::Called::migrating_wrong))]
fn migrating_wrong(image: &[u8], start: Cursor, name: &[u8]) -> bool
    requires { CursorSound image.now start }
    ensures { result ≡ migrating_wrong (rest image.now start).entries name.now }
{
    called(image, start, Status::MIGRATING, name)
        || !called(image, start, Status::COMMITTED, name) && !name_ok(name)
}
