// Steps (c) to (f) of a move, handed out: X's data cleaned, its sectors erased, Y made START.
// Y is told by its address: it may be a copy that stands in no image yet.
ghost use Rattle.std.specs.Prelude.{◌≡◌, ◌++◌, ◌+◌, ◌*◌, ◌<◌, ◌≤◌, ◌^◌, length, take, drop};
ghost use Rattle.spec.specs.Geometry.{floor, sectors};
ghost use Rattle.spec.specs.Move.{mark_steps, clean_steps, start_steps, forget_steps, vacate_steps, close_steps};
ghost use Rattle.chain.specs.Rest.{entry_of};
ghost use Rattle.chain.specs.Fold.{Whole};
ghost use Rattle.moving.specs.Clean.{cleaned_steps};
ghost use Rattle.window.specs.Handed.{Handed, Counts};
ghost use Rattle.planner.specs.Close.{standing};

use chain::Spot;
use moving::clean::is_mark;
use moving::vacated_end;
use record::up_8;
use spec::{CLEAN, SECTOR, START, floor};
use window::Emitter;

// The pair at this address, if it could be taken for a head's magic or a record's: its second byte 00.
fn hand_pair(out: &mut Emitter<'_>, image: &[u8], at: usize)
    requires at_in_bounds { (at + 1 < length image.now) × (length image.now ≤ 2 ^ 24) }
    requires counts { Counts out.old 1 }
    ensures handed { Handed out.old (mark_steps at (drop at image.now)) out.new }
    ensures passed_bound { out.new.passed ≤ out.old.passed + 1 }
{
    if is_mark(image[at], image[at + 1]) {
        out.program(at + 1, 0x00);
    }
}

// The pairs at the 8-byte boundaries of the d bytes from `at` on.
fn hand_pairs(out: &mut Emitter<'_>, image: &[u8], at: usize, d: usize)
    requires d_in_bounds { (at + d ≤ length image.now) × (length image.now ≤ 2 ^ 24) }
    requires counts { Counts out.old d }
    ensures handed { Handed out.old (clean_steps d at (take d (drop at image.now))) out.new }
    ensures passed_bound { out.new.passed ≤ out.old.passed + d }
{
    for i in (0..d.saturating_sub(1)).step_by(8) {
        hand_pair(out, image, at + i);
    }
}

// (c) X's data.
fn hand_cleaned(out: &mut Emitter<'_>, image: &[u8], x: Spot)
    requires whole { Whole image.now x × (length image.now ≤ 2 ^ 24) }
    requires counts { Counts out.old x.d }
    ensures handed { Handed out.old (cleaned_steps (entry_of image.now x)) out.new }
    ensures passed_bound { out.new.passed ≤ out.old.passed + x.d }
{
    hand_pairs(out, image, x.at + 8 + up_8(x.n + 1), x.d);
}

// (e) A CLEAN record becomes START, from A0 by way of 80.
pub fn hand_start(out: &mut Emitter<'_>, at: usize, low: u8)
    requires at_bound { at < 2 ^ 32 }
    requires counts { Counts out.old 2 }
    ensures handed { Handed out.old (start_steps at low) out.new }
    ensures passed_bound { out.new.passed ≤ out.old.passed + 2 }
{
    if low == CLEAN {
        out.program_by(at, 0x80);
    } else {
        out.program(at, START);
    }
}

// (e) and (f): X's second byte goes, if its sector is not erased, where the erased sectors end at `to` at most.
fn hand_over(out: &mut Emitter<'_>, x: usize, to: usize, y: usize, low: u8)
    requires x_bound { (x ≤ 2 ^ 24) × (y < 2 ^ 32) }
    requires counts { Counts out.old 3 }
    ensures handed { Handed out.old
        (start_steps y low ++ forget_steps (standing x) (sectors (floor x) to))
        out.new }
    ensures passed_bound { out.new.passed ≤ out.old.passed + 3 }
{
    hand_start(out, y, low);
    if to < floor(x) + SECTOR {
        out.program(x + 1, 0x00);
    }
}

// (d) to (f).
fn hand_vacated(out: &mut Emitter<'_>, x: usize, to: usize, y: usize, low: u8)
    requires x_bound { (x ≤ 2 ^ 24) × (to ≤ 2 ^ 24) × (y < 2 ^ 32) }
    requires counts { Counts out.old (to + 3) }
    ensures handed { Handed out.old
        (vacate_steps (standing x) (standing y) low (sectors (floor x) to))
        out.new }
    ensures passed_bound { out.new.passed ≤ out.old.passed + (to + 3) }
{
    out.erase_sectors(floor(x), to);
    hand_over(out, x, to, y, low);
}

// (c) to (f), of the record X and of a Y at this address with this low byte.
pub fn hand_close(out: &mut Emitter<'_>, image: &[u8], x: Spot, y: usize, low: u8)
    requires whole { Whole image.now x × (y < length image.now) × (length image.now ≤ 2 ^ 24) }
    requires counts { Counts out.old (2 * length image.now + 3) }
    ensures handed { Handed out.old
        (close_steps (length image.now) (entry_of image.now x) (standing y) low)
        out.new }
    ensures passed_bound { out.new.passed ≤ out.old.passed + (2 * length image.now + 3) }
{
    hand_cleaned(out, image, x);
    hand_vacated(out, x.at, vacated_end(image.len(), y), y, low);
}
