// From its meter to the answer of a call that writes.
ghost use Rattle.std.specs.Prelude.{◌≡◌};
ghost use Rattle.calls.specs.Carry.{spent};

use crate::Written;
use flash::Meter;

// All steps asked for are done, or the allowance ended before the last of them.
pub fn ended(m: Meter) -> Written
    ensures { result ≡ spent m }
{
    if m.asked <= m.allowance {
        return Written::Done { steps: m.asked };
    }
    Written::Cut { steps: m.allowance }
}
