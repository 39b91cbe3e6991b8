// The first image of a replay that mount would refuse. It is read before the first entry, and behind each that may have changed it.
ghost use Rattle.std.specs.Prelude.{◌≡◌, true, false, IfErr};
ghost use Rattle.spec.specs.Trace.{mount_refuses, replayable, watch_on, watch_trace, refusing};
ghost use Rattle.window.specs.Handed.{slices};
ghost use Rattle.replay.specs.Watching.{found};

use crate::entry::Entry;
use crate::{Refusing, replayable};
use door::accepted;
use spec::Refusal;

// Whether mount would refuse the image.
fn mount_refuses(image: &[u8]) -> bool
    ensures { result ≡ mount_refuses image.now }
{
    accepted(image).is_err()
}

// The same of an image that was accepted, unless it has changed since.
fn refused_now(image: &[u8], changed: bool) -> bool
    requires { changed ≡ false → mount_refuses image.now ≡ false }
    ensures { result ≡ mount_refuses image.now }
{
    changed && mount_refuses(image)
}

// The entries one after another, up to the first image that mount would refuse, or the first entry that can't be carried out.
fn watch_entries(image: &mut [u8], kinds: &[u32], addresses: &[u32], bytes: &[u32]) -> Refusing
    requires { replayable image.old (slices kinds.now addresses.now bytes.now) ≡ true }
    ensures { refusing 0 result.there result.count image.new
        ≡ watch_on 0 image.old kinds.now addresses.now bytes.now }
{
    let mut changed = true;
    for i in 0..kinds.len() {
        if refused_now(image, changed) {
            return Refusing {
                there: true,
                count: i,
            };
        }
        let entry = Entry::at(kinds, addresses, bytes, i);
        changed = entry.changes(image);
        if entry.carry_out(image).is_err() {
            return Refusing {
                there: false,
                count: i,
            };
        }
    }
    Refusing {
        there: refused_now(image, changed),
        count: kinds.len(),
    }
}

// The least count of entries after which mount would refuse the image, if there is one up to the stop. The image is left as after so many.
#[tactic(auto, unfolding(spec::specs::Trace::watch_trace))]
pub fn first_refused(
    image: &mut [u8],
    kinds: &[u32],
    addresses: &[u32],
    bytes: &[u32],
) -> Result<Refusing, Refusal>
    ensures found { found result image.new
        ≡ watch_trace image.old (slices kinds.now addresses.now bytes.now) }
    ensures refused { IfErr result (λ x. x ≡ Refusal.BadLength) }
{
    if replayable(image, kinds, addresses, bytes) {
        return Ok(watch_entries(image, kinds, addresses, bytes));
    }
    Err(Refusal::BadLength)
}
