// The steps of a remove, handed out and not done.
ghost use Rattle.std.specs.Prelude.{◌≡◌, length};
ghost use Rattle.spec.specs.Answers.{found, removing};
ghost use Rattle.spec.specs.Planner.{Writing, hand_out, planned};
ghost use Rattle.laws.specs.Length.{InRange};
ghost use Rattle.chain.specs.Seek.{found_in, FoundWhole};
ghost use Rattle.window.specs.Handed.{slices, held, Lent};
ghost use Rattle.calls.specs.Numbers.{written, WrittenTold};
ghost use Rattle.plans.specs.Planned.{handing, answer_of, handed_of};

use crate::Planned;
use calls::Written;
use chain::Spot;
use door::admitted_named;
use spec::{Refusal, Status};
use window::Emitter;

// The plan for the file that was found: no such file, or the one step.
fn plan_remove_from(
    out: &mut Emitter<'_>,
    image: &[u8],
    f: Option<Spot>,
) -> Result<Planned<Written>, Refusal>
    requires { FoundWhole image.now f × InRange (length image.now) × (out.old.passed ≡ 0) }
    ensures told { handing (written (answer_of result)) (handed_of result) (held out.new)
        ≡ hand_out (found removing (found_in image.now f)) out.old.first (held out.old) }
    ensures lent { Lent out.old out.new }
{
    let Some(e) = f else {
        return Err(Refusal::NoFile);
    };
    out.status(e.at, Status::DELETED);
    Ok(Planned {
        answer: Written::Done { steps: out.passed },
        handed: out.handed(),
    })
}

// Hands out the steps of a remove of this name, from the step `first` on; the image stays as it is.
pub fn plan_remove(
    image: &[u8],
    name: &[u8],
    first: usize,
    kinds: &mut [u32],
    addresses: &mut [u32],
    bytes: &mut [u32],
) -> Result<Planned<Written>, Refusal>
    ensures { (handing (written (answer_of result)) (handed_of result) (slices kinds.new addresses.new bytes.new)
        ≡ planned (Writing.remove name.now) image.now first
        (slices kinds.old addresses.old bytes.old))
        × WrittenTold (answer_of result) × (image.exit.now ≡ image.entry.now) }
{
    let x = admitted_named(image, name)?;
    let mut out = Emitter {
        kinds,
        addresses,
        bytes,
        first,
        passed: 0,
    };
    plan_remove_from(&mut out, image, x.file)
}
