// The door of every call: 22, 5, 6 and 16 in the table's order, or what was read.
#![tactic(auto)]

pub mod replaced;

ghost use Rattle.std.specs.Prelude.{◌≡◌};
ghost use Rattle.spec.specs.Geometry.{good_length};
ghost use Rattle.spec.specs.Door.{accepted, admitted, admitted_named};
ghost use Rattle.reading.specs.Read.{answered, judged_as, NamedFile, read_of};
ghost use Rattle.door.specs.Door.{Accepts, Admits, AdmitsNamed};

use reading::image::{judge, read_named, read_settled};
use reading::{Judged, NamedSurvey, Survey};
use record::name::check_name;
use spec::{Refusal, SECTOR};

// An image's length: whole sectors, two at least, 16 MiB at most.
#[tactic(auto, unfolding(spec::specs::Geometry::good_length))]
pub fn good_length(n: usize) -> bool
    ensures { result ≡ good_length n }
{
    n % SECTOR == 0 && (8192..=16777216).contains(&n)
}

// Mount's door: any image that can be read, and whether it is settled.
pub fn accepted(image: &[u8]) -> Result<Judged, Refusal>
    ensures { (judged_as image.now result ≡ accepted image.now) × Accepts image.now result }
{
    if good_length(image.len()) {
        return judge(image);
    }
    Err(Refusal::BadLength)
}

// The door of list and sweep: a settled image.
pub fn admitted(image: &[u8]) -> Result<Survey, Refusal>
    ensures { (answered image.now result ≡ admitted image.now) × Admits image.now result }
{
    if good_length(image.len()) {
        return read_settled(image);
    }
    Err(Refusal::BadLength)
}

// The door of put, get and remove: a settled image and a good name, and the file of that name.
pub fn admitted_named(image: &[u8], name: &[u8]) -> Result<NamedSurvey, Refusal>
    ensures { (answered image.now (read_of result) ≡ admitted_named name.now image.now)
        × AdmitsNamed image.now name.now (read_of result)
        × NamedFile image.now name.now result }
{
    if !good_length(image.len()) {
        return Err(Refusal::BadLength);
    }
    check_name(name)?;
    read_named(image, name)
}
