// Put: the file of a name gets a content, in the place of an older one.
ghost use Rattle.std.specs.Prelude.{◌≡◌, true, length};
ghost use Rattle.spec.specs.Basics.{give};
ghost use Rattle.spec.specs.Door.{admitted_named};
ghost use Rattle.spec.specs.Record.{size_of};
ghost use Rattle.spec.specs.Files.{file_named};
ghost use Rattle.spec.specs.Place.{fits};
ghost use Rattle.spec.specs.Write.{put_steps};
ghost use Rattle.spec.specs.Numbers.{outcome_of};
ghost use Rattle.spec.specs.Answers.{carry_out, put_into, put};
ghost use Rattle.flash.specs.Did.{Did};
ghost use Rattle.record.specs.Within.{NameLength};
ghost use Rattle.reading.specs.Read.{reading_of, FileTold};
ghost use Rattle.reading.specs.Accepted.{Settled};
ghost use Rattle.calls.specs.Numbers.{stored, StoredTold};
ghost use Rattle.calls.specs.Stored.{spent_on};

use crate::Stored;
use chain::Spot;
use door::admitted_named;
use door::replaced::old_file;
use flash::Meter;
use reading::Survey;
use room::has_room;
use space::counting::put_space;
use spec::{Refusal, Space};
use writing::write_file;

// Put's steps, where there is room.
fn replace(
    image: &mut [u8],
    s: Survey,
    f: Option<Spot>,
    name: &[u8],
    content: &[u8],
    m: Meter,
) -> Meter
    requires { Settled image.old s × NameLength (length name.now)
        × (fits s.place (size_of (length name.now) (length content.now)) ≡ true) × (m.asked ≡ 0)
        × FileTold image.old name.now s f }
    ensures { Did image.old m
        (put_steps s.place (file_named name.now (reading_of image.old s).entries)
        name.now content.now)
        image.new result }
{
    let old = old_file(image, f);
    write_file(image, s.place, old, name, content, m)
}

// All steps asked for are done, or the allowance ended before the last of them.
fn put_ended(m: Meter, space: Space) -> Stored
    ensures { result ≡ spent_on space m }
{
    if m.asked <= m.allowance {
        return Stored::Done {
            space,
            steps: m.asked,
        };
    }
    Stored::Cut { steps: m.allowance }
}

// The put on an image that was read: no room, or the steps.
fn put_from(
    image: &mut [u8],
    s: Survey,
    f: Option<Spot>,
    name: &[u8],
    content: &[u8],
    allowance: usize,
) -> Result<Stored, Refusal>
    requires { Settled image.old s × NameLength (length name.now)
        × (give (reading_of image.old s) ≡ admitted_named name.now image.old) × FileTold image.old name.now s f }
    ensures { (outcome_of (stored result) image.new
        ≡ carry_out image.old allowance
        (put_into name.now content.now image.old (reading_of image.old s)))
        × StoredTold result }
{
    if !has_room(image, s, name, content.len()) {
        return Err(Refusal::NoRoom);
    }
    let space = put_space(image, s, f, name, content.len());
    let m = Meter {
        allowance,
        asked: 0,
    };
    Ok(put_ended(replace(image, s, f, name, content, m), space))
}

// Puts a whole file, within this allowance of flash steps.
pub fn put(
    image: &mut [u8],
    name: &[u8],
    content: &[u8],
    allowance: usize,
) -> Result<Stored, Refusal>
    ensures { (outcome_of (stored result) image.new
        ≡ put image.old name.now content.now allowance)
        × StoredTold result }
{
    let x = admitted_named(image, name)?;
    put_from(image, x.survey, x.file, name, content, allowance)
}
