// The whole reading of an image: the survey from a head on, which repairs and moves go by, and the judgement of its rules.
ghost use Rattle.std.specs.Prelude.{◌≡◌, ◌≤◌, length, Ok};
ghost use Rattle.spec.specs.Chain.{reading_from};
ghost use Rattle.spec.specs.Reading.{judged, reading};
ghost use Rattle.spec.specs.Door.{settled_reading};
ghost use Rattle.laws.specs.Length.{Workable};
ghost use Rattle.reading.specs.Read.{first_cursor, answered, Told, Quiet, judged_as, JudgedWell, read_settled};
ghost use Rattle.reading.specs.Read.{JudgedFor, NamedFile, read_of};
ghost use Rattle.chain.specs.Rest.{rest};
ghost use Rattle.chain.specs.Repeats.{repeats_of};
ghost use Rattle.filter.specs.Hash.{name_hash};
ghost use Rattle.reading.specs.Sought.{Sought};
ghost use Rattle.chain.specs.HeadSkip.{BlankThere};
ghost use Rattle.reading.specs.Survey.{Seen, told, survey_of};

use crate::gather::gather;
use crate::rules::{legal, settled};
use crate::sought::file_of;
use crate::{Judged, NamedSurvey, Overview, Survey};
use chain::head::head;
use chain::scan::pass;
use chain::walk::start_at;
use chain::{Cursor, Item, Stretch, Tally};
use filter::hash::{HASH_LIMIT, hash};
use spec::{Ending, Place, Refusal, floor};

// The cursor at a head in this image.
pub fn first_cursor(image: &[u8], h: usize) -> Cursor
    ensures { result ≡ first_cursor image.now h }
{
    start_at(h, floor(h), image.len())
}

fn told(n: usize, h: usize, tail: usize, turned: bool, ending: Ending, tally: Tally) -> Survey
    ensures { result ≡ told n h tail turned ending tally }
{
    Survey {
        place: Place {
            head: h,
            tail,
            turned,
            length: n,
        },
        ending,
        tally,
    }
}

// The chain from h on ends so.
fn survey_of(n: usize, h: usize, end: Item, t: Tally) -> Survey
    ensures { result ≡ survey_of n h end t }
{
    match end {
        Item::Record { .. } => told(n, h, 0, false, Ending::Broken, t),
        Item::End { at, turned } => told(n, h, at, turned, Ending::Tail, t),
        Item::TornWrap { at } => told(n, h, 0, true, Ending::TornWrap { at }, t),
        Item::Broken { at, turned } => told(n, h, at, turned, Ending::Broken, t),
    }
}

// What stands from the head h on, broken or not.
pub fn survey(image: &[u8], h: usize) -> Survey
    requires { (h ≤ length image.now) × Workable image.now }
    ensures { Seen image.now h result }
{
    let p = pass(image, first_cursor(image, h));
    survey_of(image.len(), h, p.end, p.tally)
}

// The same, with what the names tell and the first file of the hash that is wanted.
fn overview(image: &[u8], h: usize, wanted: u64) -> Overview
    requires { (h ≤ length image.now) × Workable image.now }
    ensures { Seen image.now h result.survey
        × (result.repeats ≡ repeats_of (rest image.now (first_cursor image.now h)).entries)
        × Sought image.now wanted (rest image.now (first_cursor image.now h)).entries result.found }
{
    let all = gather(image, first_cursor(image, h), wanted);
    Overview {
        survey: survey_of(image.len(), h, all.pass.end, all.pass.tally),
        repeats: all.repeats,
        found: all.found,
    }
}

// The survey of a settled image, else 16.
fn if_settled(j: Judged) -> Result<Survey, Refusal>
    ensures { result ≡ read_settled j }
{
    if j.settled {
        return Ok(j.survey);
    }
    Err(Refusal::Unsettled)
}

// What is read from the head h on, and whether it is settled; blank is a run of FF.
fn judge_from(image: &[u8], h: usize, blank: Stretch, wanted: u64) -> Result<Judged, Refusal>
    requires { (h ≤ length image.now) × Workable image.now × BlankThere image.now blank }
    ensures result_value { judged_as image.now result ≡ judged image.now (reading_from image.now h) }
    ensures judged_well { JudgedWell image.now result × JudgedFor image.now wanted result }
{
    let o = overview(image, h, wanted);
    let start = first_cursor(image, h);
    if legal(image, start, o.survey, o.repeats, blank) {
        return Ok(Judged {
            survey: o.survey,
            settled: settled(image, start, o.survey, o.repeats),
            found: o.found,
        });
    }
    Err(Refusal::Broken)
}

// What an image reads as, whether it is settled, and the first file of the hash that is wanted.
fn judge_for(image: &[u8], wanted: u64) -> Result<Judged, Refusal>
    requires { Workable image.now }
    ensures { (judged_as image.now result ≡ reading image.now) × JudgedWell image.now result
        × JudgedFor image.now wanted result }
{
    let found = head(image);
    let h = found.head?;
    judge_from(image, h, found.blank, wanted)
}

// What an image reads as, and whether it is settled: all that a call asks of it first that asks for no name.
pub fn judge(image: &[u8]) -> Result<Judged, Refusal>
    requires { Workable image.now }
    ensures { (judged_as image.now result ≡ reading image.now) × JudgedWell image.now result }
{
    judge_for(image, HASH_LIMIT)
}

// What a settled image reads as, with nothing superseded; 16 for one that is not settled.
pub fn read_settled(image: &[u8]) -> Result<Survey, Refusal>
    requires { Workable image.now }
    ensures { (answered image.now result ≡ settled_reading image.now) × Told image.now result
        × Quiet image.now result }
{
    if_settled(judge(image)?)
}

// What a judgement for a name says, if the image is settled.
fn named_of(image: &[u8], name: &[u8], j: Judged) -> Result<NamedSurvey, Refusal>
    requires { JudgedWell image.now (Ok j) × JudgedFor image.now (name_hash name.now) (Ok j) }
    ensures { (read_of result ≡ read_settled j) × NamedFile image.now name.now result }
{
    let survey = if_settled(j)?;
    let file = file_of(image, first_cursor(image, survey.place.head), name, j.found);
    Ok(NamedSurvey { survey, file })
}

// The same as read_settled, with the file of this name.
pub fn read_named(image: &[u8], name: &[u8]) -> Result<NamedSurvey, Refusal>
    requires { Workable image.now }
    ensures { (answered image.now (read_of result) ≡ settled_reading image.now)
        × Told image.now (read_of result) × Quiet image.now (read_of result)
        × NamedFile image.now name.now result }
{
    let j = judge_for(image, hash(name))?;
    named_of(image, name, j)
}
