// The check of an image for C.
ghost use Rattle.std.specs.Prelude.{◌≡◌};
ghost use Rattle.spec.specs.Verdict.{verdict_numbers, check};
ghost use Rattle.checking.specs.Checked.{numbers};

use checking::answer::checked_told;
use checking::check::check;

#[unsafe(no_mangle)]
pub extern "C" fn lilota_check(
    image: &[u8],
    verdict: &mut u32,
    number: &mut u32,
    address: &mut usize,
) -> u32
    ensures { numbers result verdict.new number.new address.new
        ≡ verdict_numbers (check image.now) }
{
    let t = checked_told(check(image));
    *verdict = t.verdict;
    *number = t.number;
    *address = t.address;
    t.answer
}
