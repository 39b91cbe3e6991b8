// The replay of a bus trace for C (K7); the answer and the other numbers as in c.rt.
ghost use Rattle.std.specs.Prelude.{◌≡◌, ◌≤◌, eqb};
ghost use Rattle.spec.specs.Trace.{replayed, replay_trace, refusing, watch_trace};
ghost use Rattle.window.specs.Handed.{slices};

use replay::replay_trace;
use replay::watch::first_refused;

#[unsafe(no_mangle)]
pub extern "C" fn lilota_replay(
    image: &mut [u8],
    kinds: &[u32],
    addresses: &[u32],
    bytes: &[u32],
    position: &mut usize,
    stop: &mut u32,
) -> u32
    ensures { replayed result position.new stop.new image.new
        ≡ replay_trace image.old (slices kinds.now addresses.now bytes.now) }
{
    match replay_trace(image, kinds, addresses, bytes) {
        Ok(r) => {
            *position = r.position;
            *stop = r.stop_number();
            0
        }
        Err(x) => {
            *position = 0;
            *stop = 0;
            x.number()
        }
    }
}

#[unsafe(no_mangle)]
pub extern "C" fn lilota_first_refused(
    image: &mut [u8],
    kinds: &[u32],
    addresses: &[u32],
    bytes: &[u32],
    there: &mut u32,
    count: &mut usize,
) -> u32
    ensures { (refusing result (eqb there.new 1) count.new image.new
        ≡ watch_trace image.old (slices kinds.now addresses.now bytes.now))
        × (there.new ≤ 1) }
{
    match first_refused(image, kinds, addresses, bytes) {
        Ok(r) => {
            *there = u32::from(r.there);
            *count = r.count;
            0
        }
        Err(x) => {
            *there = 0;
            *count = 0;
            x.number()
        }
    }
}
