// The records that were read, one after another: the first of them that breaks a rule. cut is the record at which the chain breaks off;
// it counts where a name is live or not.
ghost use Rattle.std.specs.Prelude.{◌≡◌, [], ◌+◌, ◌<◌, length, Some};
ghost use Rattle.spec.specs.Reading.{second_ok, name_legal};
ghost use Rattle.spec.specs.Files.{has_named, live};
ghost use Rattle.spec.specs.Fault.{unfinished_wrong, repeated, name_wrong, mark_wrong, record_fault, chain_fault};
ghost use Rattle.chain.specs.Cursor.{CursorSound};
ghost use Rattle.chain.specs.Rest.{rest, entry_of};
ghost use Rattle.chain.specs.Fold.{Whole};
ghost use Rattle.chain.specs.Prefix.{front};
ghost use Rattle.checking.specs.Stop.{cut_list, CutInside};
ghost use Rattle.checking.specs.Records.{all_of};

use crate::CutOff;
use chain::files::{has_name, has_named, named};
use chain::names::earlier;
use chain::scan::marked;
use chain::walk::{advance, unfinished};
use chain::{Cursor, Item, Spot};
use reading::rules::{second_placed, whole};
use record::name::name_ok;
use spec::{Ending, Fault, Rule, Status};

// Whether the record that is cut off has this status and e's name.
fn cut_named(image: &[u8], cut: CutOff, status: Status, e: Spot) -> bool
    requires { Whole image.now e × (cut.at + (8 + cut.n) < length image.now) }
    ensures { result ≡ has_named status.byte (cut_list image.now (Some cut)) (entry_of image.now e) }
{
    if image[cut.at + 2] != status.byte || cut.n == 0 {
        return false;
    }
    has_name(image, e, cut.name(image))
}

// Whether an FC record has e's name, the one that is cut off too.
fn has_committed(image: &[u8], start: Cursor, cut: Option<CutOff>, e: Spot) -> bool
    requires { CursorSound image.now start × Whole image.now e × CutInside image.now cut }
    ensures { result ≡ has_named 0xFC (all_of image.now start cut) (entry_of image.now e) }
{
    if has_named(image, start, Status::COMMITTED, e) {
        return true;
    }
    match cut {
        Some(cut) => cut_named(image, cut, Status::COMMITTED, e),
        None => false,
    }
}

#[tactic(auto, unfolding(spec::specs::Files::live))]
fn is_live(image: &[u8], start: Cursor, cut: Option<CutOff>, e: Spot) -> bool
    requires { CursorSound image.now start × Whole image.now e × CutInside image.now cut }
    ensures { result ≡ live (all_of image.now start cut) (entry_of image.now e) }
{
    named(image, Status::COMMITTED, e)
        || named(image, Status::MIGRATING, e) && !has_committed(image, start, cut, e)
}

// A live name is a good one.
#[tactic(auto, unfolding(spec::specs::Reading::name_legal))]
fn name_legal(image: &[u8], start: Cursor, cut: Option<CutOff>, e: Spot) -> bool
    requires { CursorSound image.now start × Whole image.now e × CutInside image.now cut }
    ensures { result ≡ name_legal (all_of image.now start cut) (entry_of image.now e) }
{
    !is_live(image, start, cut, e) || name_ok(e.name(image))
}

// One of the first records, as many as count says, has e's status, FC or F8, and its name.
#[tactic(auto, unfolding(spec::specs::Fault::repeated))]
fn repeated(image: &[u8], start: Cursor, count: usize, e: Spot) -> bool
    requires { CursorSound image.now start × Whole image.now e }
    ensures { result ≡ repeated (front image.now start count) (entry_of image.now e) }
{
    let f = earlier(image, start, count, e);
    named(image, Status::COMMITTED, e) && f.committed
        || named(image, Status::MIGRATING, e) && f.migrating
}

#[tactic(auto, unfolding(spec::specs::Fault::name_wrong))]
fn name_wrong(image: &[u8], start: Cursor, cut: Option<CutOff>, count: usize, e: Spot) -> bool
    requires { CursorSound image.now start × Whole image.now e × CutInside image.now cut }
    ensures { result
        ≡ name_wrong (all_of image.now start cut) (front image.now start count) (entry_of image.now e) }
{
    repeated(image, start, count, e) || !name_legal(image, start, cut, e)
}

// Of the first record x and the second y.
#[tactic(auto, unfolding(spec::specs::Reading::second_ok))]
fn second_ok(image: &[u8], start: Cursor, cut: Option<CutOff>, x: Spot, y: Spot) -> bool
    requires { CursorSound image.now start × Whole image.now x × Whole image.now y × CutInside image.now cut }
    ensures { result
        ≡ second_ok (all_of image.now start cut) (entry_of image.now x) (entry_of image.now y) }
{
    !marked(image, y) || !is_live(image, start, cut, x) && second_placed(image, x, y)
}

fn second_wrong(image: &[u8], start: Cursor, cut: Option<CutOff>, e: Spot) -> bool
    requires { CursorSound image.now start × Whole image.now e × CutInside image.now cut }
    ensures { result
        ≡ mark_wrong (all_of image.now start cut) (front image.now start 1) (entry_of image.now e) }
{
    let Item::Record { spot, .. } = advance(image, start) else {
        return false;
    };
    !second_ok(image, start, cut, spot, e)
}

// A START or CLEAN out of place: of the record e, before which stand as many as count says.
fn mark_wrong(image: &[u8], start: Cursor, cut: Option<CutOff>, count: usize, e: Spot) -> bool
    requires { CursorSound image.now start × Whole image.now e × CutInside image.now cut
        × (length (front image.now start count) ≡ count) }
    ensures { result
        ≡ mark_wrong (all_of image.now start cut) (front image.now start count) (entry_of image.now e) }
{
    match count {
        0 => false,
        1 => second_wrong(image, start, cut, e),
        _ => marked(image, e),
    }
}

// An unfinished record behind which the chain breaks off.
#[tactic(auto, unfolding(spec::specs::Fault::unfinished_wrong))]
fn unfinished_wrong(image: &[u8], ending: Ending, e: Spot) -> bool
    requires { Whole image.now e }
    ensures { result ≡ unfinished_wrong ending (entry_of image.now e) }
{
    unfinished(image, e.at) && !whole(ending)
}

// The first rule that e breaks.
#[tactic(auto, unfolding(spec::specs::Fault::record_fault))]
fn record_fault(
    image: &[u8],
    start: Cursor,
    cut: Option<CutOff>,
    ending: Ending,
    count: usize,
    e: Spot,
) -> Option<Fault>
    requires { CursorSound image.now start × Whole image.now e × CutInside image.now cut
        × (length (front image.now start count) ≡ count) }
    ensures { result ≡ record_fault ending (all_of image.now start cut) (front image.now start count)
        (entry_of image.now e) }
{
    let rule = if unfinished_wrong(image, ending, e) {
        Rule::Unfinished
    } else if name_wrong(image, start, cut, count, e) {
        Rule::Name
    } else if mark_wrong(image, start, cut, count, e) {
        Rule::Mark
    } else {
        return None;
    };
    Some(Fault { rule, at: e.at })
}

// The first rule that a record breaks, of all from the head on.
pub fn chain_fault(
    image: &[u8],
    start: Cursor,
    cut: Option<CutOff>,
    ending: Ending,
) -> Option<Fault>
    requires { CursorSound image.now start × CutInside image.now cut }
    ensures { result
        ≡ chain_fault ending (all_of image.now start cut) [] (rest image.now start).entries }
{
    let mut c = start;
    let mut count = 0;
    while let Item::Record { spot, next } = advance(image, c) {
        let f = record_fault(image, start, cut, ending, count, spot);
        if f.is_some() {
            return f;
        }
        count += 1;
        c = next;
    }
    None
}
