// The steps of a put, handed out and not done.
ghost use Rattle.std.specs.Prelude.{◌≡◌, true, length};
ghost use Rattle.spec.specs.Basics.{give};
ghost use Rattle.spec.specs.Door.{admitted_named};
ghost use Rattle.spec.specs.Record.{size_of};
ghost use Rattle.spec.specs.Files.{file_named};
ghost use Rattle.spec.specs.Place.{fits};
ghost use Rattle.spec.specs.Write.{put_steps};
ghost use Rattle.spec.specs.Answers.{put_into};
ghost use Rattle.spec.specs.Planner.{Writing, hand_out, planned};
ghost use Rattle.record.specs.Within.{NameLength};
ghost use Rattle.reading.specs.Read.{reading_of, FileTold};
ghost use Rattle.reading.specs.Accepted.{Settled};
ghost use Rattle.window.specs.Handed.{slices, held, Lent, Handed};
ghost use Rattle.calls.specs.Numbers.{stored, StoredTold};
ghost use Rattle.plans.specs.Planned.{handing, answer_of, handed_of};

use crate::Planned;
use calls::Stored;
use chain::Spot;
use door::admitted_named;
use door::replaced::old_file;
use reading::Survey;
use room::has_room;
use space::counting::put_space;
use spec::Refusal;
use window::Emitter;

// Put's steps, where there is room.
fn plan_replace(
    out: &mut Emitter<'_>,
    image: &[u8],
    s: Survey,
    f: Option<Spot>,
    name: &[u8],
    content: &[u8],
)
    requires { Settled image.now s × NameLength (length name.now)
        × (fits s.place (size_of (length name.now) (length content.now)) ≡ true) × (out.old.passed ≡ 0)
        × FileTold image.now name.now s f }
    ensures { Handed out.old
        (put_steps s.place (file_named name.now (reading_of image.now s).entries)
        name.now content.now)
        out.new }
{
    let old = old_file(image, f);
    out.file(s.place, old, name, content);
}

// The plan on an image that was read: no room, or the steps.
fn plan_put_from(
    out: &mut Emitter<'_>,
    image: &[u8],
    s: Survey,
    f: Option<Spot>,
    name: &[u8],
    content: &[u8],
) -> Result<Planned<Stored>, Refusal>
    requires { Settled image.now s × NameLength (length name.now)
        × (give (reading_of image.now s) ≡ admitted_named name.now image.now) × FileTold image.now name.now s f
        × (out.old.passed ≡ 0) }
    ensures told { handing (stored (answer_of result)) (handed_of result) (held out.new)
        ≡ hand_out (put_into name.now content.now image.now (reading_of image.now s)) out.old.first (held out.old) }
    ensures lent { Lent out.old out.new }
{
    if !has_room(image, s, name, content.len()) {
        return Err(Refusal::NoRoom);
    }
    let space = put_space(image, s, f, name, content.len());
    plan_replace(out, image, s, f, name, content);
    let answer = Stored::Done {
        space,
        steps: out.passed,
    };
    Ok(Planned {
        answer,
        handed: out.handed(),
    })
}

// Hands out the steps of a put, from the step `first` on; the image stays as it is.
pub fn plan_put(
    image: &[u8],
    name: &[u8],
    content: &[u8],
    first: usize,
    kinds: &mut [u32],
    addresses: &mut [u32],
    bytes: &mut [u32],
) -> Result<Planned<Stored>, Refusal>
    ensures { (handing (stored (answer_of result)) (handed_of result) (slices kinds.new addresses.new bytes.new)
        ≡ planned (Writing.put name.now content.now) image.now first
        (slices kinds.old addresses.old bytes.old))
        × StoredTold (answer_of result) × (image.exit.now ≡ image.entry.now) }
{
    let x = admitted_named(image, name)?;
    let mut out = Emitter {
        kinds,
        addresses,
        bytes,
        first,
        passed: 0,
    };
    plan_put_from(&mut out, image, x.survey, x.file, name, content)
}
