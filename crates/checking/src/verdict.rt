// The verdict on an image of a good length.
ghost use Rattle.std.specs.Prelude.{◌≡◌, false, ◌+◌, ◌≤◌, ◌<◌, length, Ok};
ghost use Rattle.spec.specs.Chain.{reading_from};
ghost use Rattle.spec.specs.Reading.{legal, reading};
ghost use Rattle.spec.specs.Mount.{settled};
ghost use Rattle.spec.specs.Fault.{stop_rule, cut_off, end_fault, first_fault};
ghost use Rattle.spec.specs.Verdict.{first_repair, repair_verdict, verdict_of, verdict};
ghost use Rattle.laws.specs.Length.{Workable};
ghost use Rattle.reading.specs.Read.{reading_of, Surveyed, JudgedWell};
ghost use Rattle.chain.specs.Cursor.{CursorSound};
ghost use Rattle.checking.specs.Stop.{cut_list, CutInside};
ghost use Rattle.checking.specs.Last.{cut_rule, Refuses};
ghost use Rattle.checking.specs.Repairs.{repair_number};

use crate::called::cut_wrong;
use crate::dirt::free_fault;
use crate::records::chain_fault;
use crate::stop::{cut_off, shape_fault};
use crate::{CutOff, Repair};
use chain::Cursor;
use chain::head::head;
use reading::image::{first_cursor, judge, survey};
use reading::rules::{whole, wrap_torn};
use reading::{Judged, Survey};
use spec::{Fault, Rule, Verdict};

// The first repair that has a step, where one has.
fn first_repair(image: &[u8], s: Survey) -> Repair
    requires { Surveyed image.now s × (settled image.now (reading_of image.now s) ≡ false) }
    ensures { repair_number result ≡ first_repair (reading_of image.now s) }
{
    if s.head_clean(image) {
        Repair::FreeRun
    } else if s.second_marked(image) {
        Repair::Move
    } else if s.tally.pending || wrap_torn(s.ending) {
        Repair::LastThing
    } else {
        Repair::Superseded
    }
}

// Of the record that is cut off: its name breaks a rule, or else its end does.
fn cut_name(image: &[u8], start: Cursor, cut: CutOff) -> Rule
    requires { CursorSound image.now start × (cut.at + (8 + cut.n) < length image.now) }
    ensures { result ≡ cut_rule image.now start cut }
{
    if cut_wrong(image, start, image[cut.at + 2], cut.name(image)) {
        return Rule::Name;
    }
    Rule::End
}

// The rule that is broken where the chain breaks off.
fn stop_rule(image: &[u8], s: Survey, cut: Option<CutOff>) -> Rule
    requires { Surveyed image.now s × CutInside image.now cut }
    ensures { result ≡ stop_rule image.now (reading_of image.now s) (cut_list image.now cut) }
{
    match cut {
        Some(cut) => cut_name(image, first_cursor(image, s.place.head), cut),
        None => shape_fault(image, s.place),
    }
}

// Behind the records: where the chain breaks off, or in the free run.
fn end_fault(image: &[u8], s: Survey, cut: Option<CutOff>) -> Option<Fault>
    requires { Surveyed image.now s × CutInside image.now cut
        × (cut_list image.now cut ≡ cut_off image.now (reading_of image.now s)) }
    ensures { result ≡ end_fault image.now (reading_of image.now s) }
{
    if whole(s.ending) {
        return free_fault(image, s.head_clean(image), s.place);
    }
    let rule = stop_rule(image, s, cut);
    Some(Fault {
        rule,
        at: s.place.tail,
    })
}

// The first broken rule of what stands from a head on.
fn first_fault(image: &[u8], s: Survey) -> Option<Fault>
    requires { Surveyed image.now s }
    ensures { result ≡ first_fault image.now (reading_of image.now s) }
{
    let cut = cut_off(image, s);
    let start = first_cursor(image, s.place.head);
    chain_fault(image, start, cut, s.ending).or_else(|| end_fault(image, s, cut))
}

// On an image that breaks no rule.
fn sound(image: &[u8], j: Judged) -> Verdict
    requires { JudgedWell image.now (Ok j) }
    ensures { result ≡ repair_verdict (first_repair (reading_of image.now j.survey)) }
{
    if j.settled {
        return Verdict::Settled;
    }
    // a verdict names it by number, as K13 does
    let number = first_repair(image, j.survey).number();
    Verdict::Recovery { number }
}

// On one that breaks a rule, from its head h on.
fn broken_from(image: &[u8], h: usize) -> Verdict
    requires { (h ≤ length image.now) × Workable image.now × (legal image.now (reading_from image.now h) ≡ false) }
    ensures { result ≡ verdict_of image.now (reading_from image.now h) }
{
    let Some(Fault { rule, at }) = first_fault(image, survey(image, h)) else {
        unreachable!();
    };
    Verdict::Broken { rule, at }
}

fn broken(image: &[u8]) -> Verdict
    requires { Workable image.now × Refuses (reading image.now) }
    ensures { result ≡ verdict image.now }
{
    match head(image).head {
        Ok(h) => broken_from(image, h),
        Err(_) => Verdict::Broken {
            rule: Rule::Head,
            at: 0,
        },
    }
}

// One pass tells a good image; only an image that is refused is gone over again.
pub fn verdict(image: &[u8]) -> Verdict
    requires { Workable image.now }
    ensures { result ≡ verdict image.now }
{
    match judge(image) {
        Ok(j) => sound(image, j),
        Err(_) => broken(image),
    }
}
