// The steps of a sweep, handed out and not done.
ghost use Rattle.std.specs.Prelude.{◌≡◌};
ghost use Rattle.spec.specs.Basics.{give};
ghost use Rattle.spec.specs.Door.{admitted};
ghost use Rattle.spec.specs.Answers.{sweep_of};
ghost use Rattle.spec.specs.Planner.{Writing, hand_out, planned};
ghost use Rattle.reading.specs.Read.{reading_of};
ghost use Rattle.reading.specs.Accepted.{Settled};
ghost use Rattle.window.specs.Handed.{slices, held, Lent};
ghost use Rattle.calls.specs.Numbers.{swept, SweptTold};
ghost use Rattle.plans.specs.Planned.{handing, answer_of, handed_of};

use crate::Planned;
use calls::Swept;
use door::admitted;
use planner::sweep::hand_sweep;
use reading::Survey;
use reading::image::first_cursor;
use space::stride::sweep_space;
use spec::Refusal;
use sweeping::one_move::no_room;
use sweeping::sweep::at_most;
use window::Emitter;

// The plan on an image that was read: no room for the first move, or the moves.
fn plan_sweep_from(
    out: &mut Emitter<'_>,
    image: &[u8],
    s: Survey,
) -> Result<Planned<Swept>, Refusal>
    requires { Settled image.now s × (give (reading_of image.now s) ≡ admitted image.now) × (out.old.passed ≡ 0) }
    ensures told { handing (swept (answer_of result)) (handed_of result) (held out.new)
        ≡ hand_out (sweep_of image.now (reading_of image.now s)) out.old.first (held out.old) }
    ensures lent { Lent out.old out.new }
{
    if no_room(image, s.place) {
        return Err(Refusal::NoRoom);
    }
    let most = at_most(s.tally.records);
    let space = sweep_space(image, s, most);
    let start = first_cursor(image, s.place.head);
    let moves = hand_sweep(out, image, start, s.place, most);
    let answer = Swept::Done {
        moves,
        space,
        steps: out.passed,
    };
    Ok(Planned {
        answer,
        handed: out.handed(),
    })
}

// Hands out the steps of a sweep, from the step `first` on; the image stays as it is.
pub fn plan_sweep(
    image: &[u8],
    first: usize,
    kinds: &mut [u32],
    addresses: &mut [u32],
    bytes: &mut [u32],
) -> Result<Planned<Swept>, Refusal>
    ensures { (handing (swept (answer_of result)) (handed_of result) (slices kinds.new addresses.new bytes.new)
        ≡ planned Writing.sweep image.now first
        (slices kinds.old addresses.old bytes.old))
        × SweptTold (answer_of result) × (image.exit.now ≡ image.entry.now) }
{
    let s = admitted(image)?;
    let mut out = Emitter {
        kinds,
        addresses,
        bytes,
        first,
        passed: 0,
    };
    plan_sweep_from(&mut out, image, s)
}
