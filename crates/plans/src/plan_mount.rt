// The steps of a mount, handed out and not done.
ghost use Rattle.std.specs.Prelude.{◌≡◌, Ok};
ghost use Rattle.spec.specs.Answers.{mount_of};
ghost use Rattle.spec.specs.Planner.{Writing, hand_out, planned};
ghost use Rattle.spec.specs.Mount.{settled};
ghost use Rattle.reading.specs.Read.{reading_of};
ghost use Rattle.reading.specs.Accepted.{Accepted};
ghost use Rattle.window.specs.Handed.{slices, held, Lent};
ghost use Rattle.calls.specs.Numbers.{mounted, MountedTold};
ghost use Rattle.calls.specs.Space.{Legal};
ghost use Rattle.plans.specs.Planned.{handing, answer_of, handed_of};

use crate::Planned;
use calls::Mounted;
use door::accepted;
use planner::mount::{hand_mend, planned_report};
use reading::Judged;
use space::counting::mount_space;
use spec::Refusal;
use window::Emitter;

// The plan on an image that was read.
fn plan_mount_from(out: &mut Emitter<'_>, image: &[u8], j: Judged) -> Planned<Mounted>
    requires { Accepted image.now j.survey × Legal image.now j.survey
        × (j.settled ≡ settled image.now (reading_of image.now j.survey)) × (out.old.passed ≡ 0) }
    ensures told { handing (mounted (Ok result.answer)) result.handed (held out.new)
        ≡ hand_out (mount_of image.now (reading_of image.now j.survey)) out.old.first (held out.old) }
    ensures lent { Lent out.old out.new }
{
    let report = planned_report(image, j.survey);
    let space = mount_space(image, j.survey, j.settled);
    hand_mend(out, image, j.survey);
    let answer = Mounted::Done {
        report,
        space,
        steps: out.passed,
    };
    Planned {
        answer,
        handed: out.handed(),
    }
}

// Hands out the steps of a mount, from the step `first` on; the image stays as it is.
pub fn plan_mount(
    image: &[u8],
    first: usize,
    kinds: &mut [u32],
    addresses: &mut [u32],
    bytes: &mut [u32],
) -> Result<Planned<Mounted>, Refusal>
    ensures { (handing (mounted (answer_of result)) (handed_of result) (slices kinds.new addresses.new bytes.new)
        ≡ planned Writing.mount image.now first
        (slices kinds.old addresses.old bytes.old))
        × MountedTold (answer_of result) × (image.exit.now ≡ image.entry.now) }
{
    let j = accepted(image)?;
    let mut out = Emitter {
        kinds,
        addresses,
        bytes,
        first,
        passed: 0,
    };
    Ok(plan_mount_from(&mut out, image, j))
}
