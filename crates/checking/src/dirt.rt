// The first byte of the free run that is not FF.
ghost use Rattle.std.specs.Prelude.{◌≡◌, ◌≤◌, length};
ghost use Rattle.spec.specs.Fault.{dirt_part, run_fault};
ghost use Rattle.chain.specs.FreeLaws.{InImage};
ghost use Rattle.checking.specs.Dirt.{below_fault, sector_fault, free_fault_by};

use spec::{Fault, Place, Rule, SECTOR, floor};

// Of the bytes from a up to b.
#[tactic(auto, using(crate::specs::Dirt::part_dirt, crate::specs::Dirt::part_clean, crate::specs::Dirt::part_none))]
fn dirt_part(image: &[u8], a: usize, b: usize) -> Option<Fault>
    requires { b ≤ length image.now }
    ensures { result ≡ dirt_part a b image.now }
{
    if a < b {
        let run = flash::first_written(&image[a..b]);
        if run.place < b - a {
            return Some(Fault {
                rule: Rule::Free,
                at: a + run.place,
            });
        }
    }
    None
}

// Of the stretch below the head's sector, which is free before the turn.
fn below_fault(image: &[u8], p: Place) -> Option<Fault>
    requires { InImage image.now p }
    ensures { result ≡ below_fault image.now p }
{
    if p.turned {
        return None;
    }
    dirt_part(image, 0, floor(p.head))
}

#[tactic(auto, unfolding(spec::specs::Fault::run_fault))]
fn run_fault(image: &[u8], p: Place) -> Option<Fault>
    requires { InImage image.now p }
    ensures { result ≡ run_fault image.now p }
{
    dirt_part(image, p.tail, p.limit()).or_else(|| below_fault(image, p))
}

// Of the tail's own sector, as far as it lies in the free run.
#[tactic(auto, unfolding(crate::specs::Dirt::sector_fault))]
fn sector_fault(image: &[u8], p: Place) -> Option<Fault>
    requires { InImage image.now p }
    ensures { result ≡ sector_fault image.now p }
{
    let end = floor(p.tail) + SECTOR;
    dirt_part(image, p.tail, end.min(p.limit()))
}

// Behind a CLEAN head only the tail's own sector counts.
#[tactic(auto, unfolding(crate::specs::Dirt::free_fault_by))]
pub fn free_fault(image: &[u8], clean: bool, p: Place) -> Option<Fault>
    requires { InImage image.now p }
    ensures { result ≡ free_fault_by clean image.now p }
{
    if clean {
        return sector_fault(image, p);
    }
    run_fault(image, p)
}
