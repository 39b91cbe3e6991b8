// A file's length for C.
ghost use Rattle.std.specs.Prelude.{◌≡◌};
ghost use Rattle.spec.specs.Numbers.{outcome_of};
ghost use Rattle.spec.specs.Length.{of_length, file_length};
ghost use Rattle.calls.specs.Numbers.{fault, with_fault};

use crate::c::tell_fault;
use calls::length::file_length;
use calls::numbers::Numbers;

#[unsafe(no_mangle)]
pub extern "C" fn lilota_length(
    image: &[u8],
    head: usize,
    name: &[u8],
    reason: &mut u32,
    place: &mut usize,
    size: &mut usize,
) -> u32
    ensures { outcome_of (with_fault (fault reason.new place.new) (of_length result size.new))
        image.exit.now
        ≡ file_length image.now head name.now }
{
    let n = Numbers::of_length(file_length(image, head, name));
    tell_fault(n.fault, reason, place);
    *size = n.size;
    n.answer
}
