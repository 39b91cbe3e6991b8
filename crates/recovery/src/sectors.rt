// The sectors of a stretch that are not all FF, erased one after another, ascending.
ghost use Rattle.std.specs.Prelude.{◌≡◌, [], ◌∷◌, ℕ, ◌+◌, ◌≤◌, length, drop};
ghost use Rattle.spec.specs.Geometry.{sectors};
ghost use Rattle.laws.specs.Length.{InRange};
ghost use Rattle.flash.specs.Did.{Did};
ghost use Rattle.flash.specs.Meters.{CanCount, AskedMost};
ghost use Rattle.recovery.specs.DirtySectors.{dirty_erased};

use flash::{Meter, erase, is_blank};
use spec::SECTOR;

// The sector at this address, unless it is all FF already.
fn erase_if_dirty(image: &mut [u8], at: usize, m: Meter) -> Meter
    requires at_in_bounds { (at + 4096 ≤ length image.old) × InRange at }
    requires can_count { CanCount m 1 }
    ensures fact { let s = image.old in Did s m (dirty_erased s (at ∷ [])) image.new result }
    ensures asked_most { AskedMost m result 1 }
    ensures by_index { (k : ℕ) → at + 4096 ≤ k → drop k image.new ≡ drop k image.old }
{
    if is_blank(&image[at..at + SECTOR]) {
        return m;
    }
    erase(image, at, m)
}

// Those of the sectors that are not all FF. What stands from `to` on stays as it was.
pub fn erase_dirty(image: &mut [u8], from: usize, to: usize, m: Meter) -> Meter
    requires in_range { InRange from × (to ≤ length image.old) × InRange to }
    requires can_count { CanCount m to }
    ensures fact { let s = image.old in Did s m (dirty_erased s (sectors from to)) image.new result }
    ensures asked_most { AskedMost m result to }
    ensures image_unchanged { drop to image.new ≡ drop to image.old }
{
    let mut q = m;
    for a in (from..to.saturating_sub(SECTOR - 1)).step_by(SECTOR) {
        q = erase_if_dirty(image, a, q);
    }
    q
}
