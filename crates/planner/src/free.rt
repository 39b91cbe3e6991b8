// Repair 1 handed out: behind a CLEAN head the sectors of the free run that are not all FF, then the head's low byte.
ghost use Rattle.std.specs.Prelude.{[], ◌∷◌, ◌+◌, ◌*◌, ◌≤◌, ◌^◌, length};
ghost use Rattle.spec.specs.Geometry.{sectors};
ghost use Rattle.spec.specs.Mount.{erase_steps};
ghost use Rattle.planning.specs.Repairs.{steps_1};
ghost use Rattle.chain.specs.FreeLaws.{InImage};
ghost use Rattle.reading.specs.Read.{reading_of, Surveyed};
ghost use Rattle.recovery.specs.DirtySectors.{dirty_erased};
ghost use Rattle.window.specs.Handed.{Handed, Counts};

use crate::close::hand_start;
use chain::scan::low_of;
use flash::is_blank;
use reading::Survey;
use record::bytes::is_clean;
use recovery::free::ceiling;
use spec::{Place, SECTOR, floor};
use window::Emitter;

// The sector at this address, unless it is all FF already.
fn hand_if_dirty(out: &mut Emitter<'_>, image: &[u8], at: usize)
    requires { (at + 4096 ≤ length image.now) × (at ≤ 2 ^ 24) × Counts out.old 1 }
    ensures handed { Handed out.old (dirty_erased image.now (at ∷ [])) out.new }
    ensures passed_bound { out.new.passed ≤ out.old.passed + 1 }
{
    if !is_blank(&image[at..at + SECTOR]) {
        out.erase(at);
    }
}

// Those of the sectors that are not all FF.
fn hand_dirty(out: &mut Emitter<'_>, image: &[u8], from: usize, to: usize)
    requires { (from ≤ 2 ^ 24) × (to ≤ length image.now) × (to ≤ 2 ^ 24) × Counts out.old to }
    ensures handed { Handed out.old (dirty_erased image.now (sectors from to)) out.new }
    ensures passed_bound { out.new.passed ≤ out.old.passed + to }
{
    for a in (from..to.saturating_sub(SECTOR - 1)).step_by(SECTOR) {
        hand_if_dirty(out, image, a);
    }
}

// The sectors that lie wholly in the free run and are not all FF.
fn hand_run(out: &mut Emitter<'_>, image: &[u8], p: Place)
    requires { InImage image.now p × Counts out.old (2 * length image.now) }
    ensures handed { Handed out.old (erase_steps image.now p) out.new }
    ensures passed_bound { out.new.passed ≤ out.old.passed + 2 * length image.now }
{
    let low = floor(p.head);
    let from = ceiling(p.tail);
    if p.turned {
        hand_dirty(out, image, from, low);
    } else {
        hand_dirty(out, image, 0, low);
        hand_dirty(out, image, from, p.length);
    }
}

// The repair, on what was read.
pub fn hand_free(out: &mut Emitter<'_>, image: &[u8], s: Survey)
    requires { Surveyed image.now s × Counts out.old (2 * length image.now + 2) }
    ensures handed { Handed out.old (steps_1 image.now (reading_of image.now s)) out.new }
    ensures passed_bound { out.new.passed ≤ out.old.passed + (2 * length image.now + 2) }
{
    if s.tally.records == 0 {
        return;
    }
    let low = low_of(image, s.tally.first);
    if is_clean(low) {
        hand_run(out, image, s.place);
        hand_start(out, s.place.head, low);
    }
}
