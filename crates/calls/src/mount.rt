// Mount: what a power cut left is repaired, so that the other calls take the image.
ghost use Rattle.std.specs.Prelude.{◌≡◌, Ok};
ghost use Rattle.spec.specs.Mount.{mended, settled};
ghost use Rattle.spec.specs.Space.{space_left};
ghost use Rattle.spec.specs.Numbers.{outcome_of};
ghost use Rattle.spec.specs.Answers.{carry_out, mount_of, mount};
ghost use Rattle.reading.specs.Read.{reading_of};
ghost use Rattle.reading.specs.Accepted.{Accepted};
ghost use Rattle.calls.specs.declared.Mounted.{Mounted};
ghost use Rattle.calls.specs.Space.{Legal};
ghost use Rattle.calls.specs.Numbers.{mounted, report, MountedTold};

use crate::Mounted;
use door::accepted;
use flash::Meter;
use reading::{Judged, Survey};
use recovery::mend;
use space::counting::mount_space;
use spec::{Refusal, Report, Space};

// What is reported of an image on which mount has no step to do.
fn unchanged(s: Survey, space: Space) -> Mounted
    ensures { result ≡ Mounted.Done (report s.place.head s.place.tail s.tally.files) space 0 }
{
    Mounted::Done {
        report: Report {
            head: s.place.head,
            tail: s.place.tail,
            files: s.tally.files,
        },
        space,
        steps: 0,
    }
}

// The repairs, on an image that was read; the space is that of the image that they leave.
fn mount_repaired(image: &mut [u8], s: Survey, space: Space, allowance: usize) -> Mounted
    requires { Accepted image.old s × (space ≡ space_left (mended image.old (reading_of image.old s))) }
    ensures { outcome_of (mounted (Ok result)) image.new
        ≡ carry_out image.old allowance (mount_of image.old (reading_of image.old s)) }
{
    let w = mend(
        image,
        s.place.head,
        Meter {
            allowance,
            asked: 0,
        },
    );
    match w.report {
        None => Mounted::Cut {
            steps: w.meter.allowance,
        },
        Some(report) => Mounted::Done {
            report,
            space,
            steps: w.meter.asked,
        },
    }
}

// Mount on an image that was read: a settled one needs no further look.
fn mount_from(image: &mut [u8], j: Judged, allowance: usize) -> Mounted
    requires { Accepted image.old j.survey × (j.settled ≡ settled image.old (reading_of image.old j.survey))
        × Legal image.old j.survey }
    ensures { outcome_of (mounted (Ok result)) image.new
        ≡ carry_out image.old allowance (mount_of image.old (reading_of image.old j.survey)) }
{
    let s = j.survey;
    let space = mount_space(image, s, j.settled);
    if j.settled {
        return unchanged(s, space);
    }
    mount_repaired(image, s, space, allowance)
}

// Repairs the image, within this allowance of flash steps.
pub fn mount(image: &mut [u8], allowance: usize) -> Result<Mounted, Refusal>
    ensures { (outcome_of (mounted result) image.new ≡ mount image.old allowance) × MountedTold result }
{
    let j = accepted(image)?;
    Ok(mount_from(image, j, allowance))
}
