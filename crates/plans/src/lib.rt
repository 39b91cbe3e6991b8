// The step planner (02, K1): put, remove, sweep and mount read the image, change nothing, and hand out their steps into lent slices.
// They take three slices of numbers, as C lends them, and make one window of them.
#![tactic(auto)]

pub mod plan_mount;
pub mod plan_put;
pub mod plan_remove;
pub mod plan_sweep;

ghost use Rattle.std.specs.Prelude.{◌≡◌};
ghost use Rattle.plans.specs.Planned.{handed_of};

use calls::numbers::Numbers;
use spec::Refusal;

// What a planned call answers, unless it refuses: as the call itself does with enough allowance; and how many steps it handed out.
#[derive(Clone, Copy)]
pub struct Planned<T> {
    pub answer: T,
    pub handed: usize,
}

// How many steps were handed out; a refusal hands out none.
pub fn handed<T>(planned: &Result<Planned<T>, Refusal>) -> usize
    ensures { result ≡ handed_of planned.now }
{
    match planned {
        Ok(p) => p.handed,
        Err(_) => 0,
    }
}

impl<T: Into<Numbers>> From<Planned<T>> for Numbers {
    ghost from_gives = { λ p n. T.converts p.answer n };

    fn from(p: Planned<T>) -> Numbers {
        p.answer.into()
    }
}
