// Remove: the file of a name goes.
ghost use Rattle.std.specs.Prelude.{◌≡◌};
ghost use Rattle.spec.specs.Numbers.{outcome_of};
ghost use Rattle.spec.specs.Answers.{carry_out, found, removing, remove};
ghost use Rattle.chain.specs.Seek.{found_in, FoundWhole};
ghost use Rattle.calls.specs.Numbers.{written, WrittenTold};

use crate::Written;
use crate::carry::ended;
use chain::Spot;
use door::admitted_named;
use flash::Meter;
use spec::{Refusal, Status};
use writing::build::set_status;

// The removal of the file that was found: no such file, or the one step.
fn remove_from(image: &mut [u8], f: Option<Spot>, allowance: usize) -> Result<Written, Refusal>
    requires { FoundWhole image.old f }
    ensures { (outcome_of (written result) image.new
        ≡ carry_out image.old allowance (found removing (found_in image.old f)))
        × WrittenTold result }
{
    let Some(e) = f else {
        return Err(Refusal::NoFile);
    };
    let m = Meter {
        allowance,
        asked: 0,
    };
    Ok(ended(set_status(image, e.at, Status::DELETED, m)))
}

// Removes the file of this name, within this allowance of flash steps.
pub fn remove(image: &mut [u8], name: &[u8], allowance: usize) -> Result<Written, Refusal>
    ensures { (outcome_of (written result) image.new ≡ remove image.old name.now allowance)
        × WrittenTold result }
{
    let x = admitted_named(image, name)?;
    remove_from(image, x.file, allowance)
}
