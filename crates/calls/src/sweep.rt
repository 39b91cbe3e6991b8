// Sweep: up to five moves, which make room in front of the head.
ghost use Rattle.std.specs.Prelude.{◌≡◌};
ghost use Rattle.spec.specs.Basics.{give};
ghost use Rattle.spec.specs.Door.{admitted};
ghost use Rattle.spec.specs.Numbers.{outcome_of};
ghost use Rattle.spec.specs.Answers.{carry_out, sweep_of, sweep};
ghost use Rattle.reading.specs.Read.{reading_of};
ghost use Rattle.reading.specs.Accepted.{Settled};
ghost use Rattle.calls.specs.Numbers.{swept, SweptTold};

use crate::Swept;
use door::admitted;
use flash::Meter;
use reading::Survey;
use space::stride::sweep_space;
use spec::Refusal;
use sweeping::one_move::no_room;
use sweeping::sweep::{at_most, sweep as move_on};

// The sweep of an image that was read: no room for the first move, or the moves.
fn sweep_from(image: &mut [u8], s: Survey, allowance: usize) -> Result<Swept, Refusal>
    requires { Settled image.old s × (give (reading_of image.old s) ≡ admitted image.old) }
    ensures { (outcome_of (swept result) image.new
        ≡ carry_out image.old allowance (sweep_of image.old (reading_of image.old s)))
        × SweptTold result }
{
    if no_room(image, s.place) {
        return Err(Refusal::NoRoom);
    }
    let space = sweep_space(image, s, at_most(s.tally.records));
    let m = Meter {
        allowance,
        asked: 0,
    };
    let r = move_on(image, s.place, s.tally.records, m);
    let q = r.meter;
    if q.asked <= q.allowance {
        return Ok(Swept::Done {
            moves: r.moves,
            space,
            steps: q.asked,
        });
    }
    Ok(Swept::Cut {
        moves: r.moves,
        steps: q.allowance,
    })
}

// Sweeps, within this allowance of flash steps.
pub fn sweep(image: &mut [u8], allowance: usize) -> Result<Swept, Refusal>
    ensures { (outcome_of (swept result) image.new ≡ sweep image.old allowance) × SweptTold result }
{
    let s = admitted(image)?;
    sweep_from(image, s, allowance)
}
