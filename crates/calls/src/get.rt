// Get: the bytes of the file of a name, as a part of the image, or where they stand.
ghost use Rattle.std.specs.Prelude.{◌≡◌, length};
ghost use Rattle.spec.specs.Numbers.{outcome_of, part_of};
ghost use Rattle.spec.specs.Answers.{carry_out, found, getting, get};
ghost use Rattle.laws.specs.Length.{InRange};
ghost use Rattle.chain.specs.Seek.{found_in, FoundWhole};
ghost use Rattle.calls.specs.Numbers.{located, ExtentInside, LiesAt};

use crate::numbers::NO_EXTENT;
use chain::Spot;
use door::admitted_named;
use record::up_8;
use spec::{Extent, Refusal};

// The bytes of the file that was found.
fn get_from(image: &[u8], f: Option<Spot>) -> Result<Extent, Refusal>
    requires { FoundWhole image.now f × InRange (length image.now) }
    ensures { (outcome_of (located result) image.exit.now
        ≡ carry_out image.now 0 (found getting (found_in image.now f)))
        × ExtentInside image.now (located result).extent }
{
    let Some(e) = f else {
        return Err(Refusal::NoFile);
    };
    Ok(Extent {
        offset: e.at + (8 + up_8(e.n + 1)),
        length: e.d,
    })
}

// Where the bytes of the file of this name stand.
pub fn get_place(image: &[u8], name: &[u8]) -> Result<Extent, Refusal>
    ensures { (outcome_of (located result) image.exit.now ≡ get image.now name.now)
        × ExtentInside image.now (located result).extent }
{
    let x = admitted_named(image, name)?;
    get_from(image, x.file)
}

// The bytes of the file of this name, where they stand in the image; or none.
pub fn get<'a>(image: &'a [u8], name: &[u8]) -> &'a [u8]
    ensures { (result.now ≡ part_of image.now (get image.now name.now).numbers)
        × LiesAt result image.entry (get image.now name.now).numbers.extent
        × (image.exit.now ≡ image.entry.now) }
{
    let x = get_place(image, name).unwrap_or(NO_EXTENT);
    &image[x.offset..x.offset + x.length]
}
