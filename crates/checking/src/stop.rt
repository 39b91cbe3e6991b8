// The place at which the chain breaks off: the rule that is broken there, and the record that stands there as far as it can be read.
ghost use Rattle.std.specs.Prelude.{◌≡◌, false, ◌+◌, ◌≤◌, ◌<◌, drop};
ghost use Rattle.spec.specs.Bytes.{is_spare};
ghost use Rattle.spec.specs.Record.{spare_of};
ghost use Rattle.spec.specs.Reading.{limit};
ghost use Rattle.spec.specs.Fault.{stands, stands_behind, spare_fault, torn_fault, reserved_fault, finished_fault, shape, name_here};
ghost use Rattle.spec.specs.Fault.{shape_fault, is_cut_off, cut_off};
ghost use Rattle.laws.specs.Length.{Addable};
ghost use Rattle.chain.specs.FreeLaws.{InImage};
ghost use Rattle.reading.specs.Read.{reading_of, Surveyed};
ghost use Rattle.checking.specs.Stop.{EndsInside, cut_there, cut_list, CutInside};

use crate::CutOff;
use chain::head::byte;
use reading::Survey;
use reading::rules::whole;
use record::data_len;
use record::kind::kind_of;
use record::name::name_len;
use spec::{Kind, Place, Rule, Status, floor};

// The kind of what stands at this address, its reserved byte left aside.
fn shape(image: &[u8], at: usize) -> Kind
    requires { Addable at }
    ensures { result ≡ shape (drop at image.now) }
{
    kind_of(
        byte(image, at, 0),
        byte(image, at, 1),
        Status::from_byte(byte(image, at, 2)),
        0xFF,
    )
}

// Whether its reserved byte is FF.
#[tactic(auto, unfolding(spec::specs::Bytes::is_spare))]
fn is_spare(image: &[u8], at: usize) -> bool
    requires { Addable at }
    ensures { result ≡ is_spare (spare_of (drop at image.now)) }
{
    byte(image, at, 3) == 0xFF
}

// The length of its name, or 64 if none of the 64 bytes up to the image's end ends it.
fn name_here(image: &[u8], at: usize, reserved: bool) -> usize
    requires { Addable at }
    ensures { (result ≡ name_here reserved (drop at image.now)) × (result ≤ 64) × EndsInside image.now at result }
{
    let from = at + 8;
    if from < image.len() {
        return name_len(&image[from..], reserved);
    }
    64
}

// Whether something stands at the front of the part.
#[tactic(auto, unfolding(spec::specs::Fault::stands))]
fn stands(part: &[u8]) -> bool
    ensures { result ≡ stands part.now }
{
    let n = part.len().min(8);
    !flash::is_blank(&part[..n])
}

// Whether something stands so many bytes behind the tail, in its stretch or, at the end of it, at 0.
fn stands_behind(image: &[u8], p: Place, size: usize) -> bool
    requires { InImage image.now p × (p.tail + size ≤ limit p) }
    ensures { result ≡ stands_behind image.now p size }
{
    let l = p.limit();
    let from = p.tail + size;
    if from < l {
        return stands(&image[from..l]);
    }
    if p.turned || floor(p.head) == 0 {
        return false;
    }
    stands(image)
}

// An unfinished record of this size whose reserved byte is not FF.
fn spare_fault(image: &[u8], p: Place, size: usize) -> Rule
    requires { InImage image.now p × (0 < size) }
    ensures { result ≡ spare_fault image.now p size }
{
    let l = p.limit();
    if p.tail <= l && size <= l - p.tail && stands_behind(image, p, size) {
        return Rule::Unfinished;
    }
    Rule::Header
}

#[tactic(auto, unfolding(spec::specs::Fault::torn_fault))]
fn torn_fault(image: &[u8], p: Place, spare: bool) -> Rule
    requires { InImage image.now p }
    ensures { result ≡ torn_fault image.now p spare }
{
    if spare {
        return Rule::End;
    }
    spare_fault(image, p, 16)
}

// Of a reserved record, whose name has n bytes.
#[tactic(auto, unfolding(spec::specs::Fault::reserved_fault))]
fn reserved_fault(image: &[u8], p: Place, spare: bool, n: usize) -> Rule
    requires { InImage image.now p × EndsInside image.now p.tail n }
    ensures { result ≡ reserved_fault image.now p spare n }
{
    if 64 <= n {
        return Rule::Unfinished;
    }
    if spare {
        return Rule::End;
    }
    let at = p.tail;
    let d = data_len(&image[at..]);
    spare_fault(image, p, record::size(n, d))
}

#[tactic(auto, unfolding(spec::specs::Fault::finished_fault))]
fn finished_fault(spare: bool, n: usize) -> Rule
    ensures { result ≡ finished_fault spare n }
{
    if !spare {
        Rule::Header
    } else if n < 64 {
        Rule::End
    } else {
        Rule::Name
    }
}

// The rule that is broken at the tail.
#[tactic(auto, unfolding(spec::specs::Fault::shape_fault))]
pub fn shape_fault(image: &[u8], p: Place) -> Rule
    requires { InImage image.now p }
    ensures { let w = drop p.tail image.now in result ≡ shape_fault image.now p w (shape w) }
{
    let at = p.tail;
    let spare = is_spare(image, at);
    match shape(image, at) {
        Kind::Record => finished_fault(spare, name_here(image, at, false)),
        Kind::Reserved => reserved_fault(image, p, spare, name_here(image, at, true)),
        Kind::Torn => torn_fault(image, p, spare),
        Kind::Marker if spare => Rule::Mark,
        Kind::TornMarker => Rule::Unfinished,
        Kind::Marker | Kind::Clear | Kind::Bad => Rule::Header,
    }
}

// Whether a record stands at this address whose header and name, of n bytes, are good.
#[tactic(auto, unfolding(spec::specs::Fault::is_cut_off))]
fn is_cut_off(image: &[u8], at: usize, n: usize) -> bool
    requires { Addable at × (n ≡ name_here false (drop at image.now)) }
    ensures { result ≡ is_cut_off (drop at image.now) }
{
    matches!(shape(image, at), Kind::Record) && is_spare(image, at) && n < 64
}

fn cut_off_at(image: &[u8], at: usize) -> Option<CutOff>
    requires { Addable at }
    ensures { (cut_list image.now result ≡ cut_there image.now at) × CutInside image.now result }
{
    let n = name_here(image, at, false);
    if is_cut_off(image, at, n) {
        return Some(CutOff { at, n });
    }
    None
}

// The record at which the chain breaks off, as far as it can be read.
pub fn cut_off(image: &[u8], s: Survey) -> Option<CutOff>
    requires { Surveyed image.now s }
    ensures { (cut_list image.now result ≡ cut_off image.now (reading_of image.now s))
        × CutInside image.now result }
{
    if whole(s.ending) || s.tally.pending {
        return None;
    }
    cut_off_at(image, s.place.tail)
}
