// List: the name of the file with an index, as a part of the image, or where it stands.
ghost use Rattle.std.specs.Prelude.{◌≡◌};
ghost use Rattle.spec.specs.Numbers.{outcome_of, part_of};
ghost use Rattle.spec.specs.Answers.{carry_out, list_of, list};
ghost use Rattle.reading.specs.Read.{reading_of};
ghost use Rattle.reading.specs.Accepted.{Settled};
ghost use Rattle.calls.specs.Numbers.{listed, ExtentInside, LiesAt};

use crate::Listed;
use crate::numbers::NO_EXTENT;
use chain::files::file_indexed;
use door::admitted;
use reading::Survey;
use reading::image::first_cursor;
use spec::{Extent, Refusal};

const NONE_LISTED: Listed = Listed {
    name: NO_EXTENT,
    size: 0,
};

// The file with this index, of what was read.
fn list_from(image: &[u8], index: usize, s: Survey) -> Result<Listed, Refusal>
    requires { Settled image.now s }
    ensures { (outcome_of (listed result) image.exit.now
        ≡ carry_out image.now 0 (list_of index (reading_of image.now s)))
        × ExtentInside image.now (listed result).extent }
{
    let Some(e) = file_indexed(image, first_cursor(image, s.place.head), index) else {
        return Err(Refusal::NoFile);
    };
    Ok(Listed {
        name: Extent {
            offset: e.at + 8,
            length: e.n,
        },
        size: e.d,
    })
}

// The file with this index, in the chain's order.
pub fn list_place(image: &[u8], index: usize) -> Result<Listed, Refusal>
    ensures { (outcome_of (listed result) image.exit.now ≡ list image.now index)
        × ExtentInside image.now (listed result).extent }
{
    let s = admitted(image)?;
    list_from(image, index, s)
}

// The name of the file with this index, where it stands in the image; or none.
pub fn list_name(image: &[u8], index: usize) -> &[u8]
    ensures { (result.now ≡ part_of image.now (list image.now index).numbers)
        × LiesAt result image.entry (list image.now index).numbers.extent
        × (image.exit.now ≡ image.entry.now) }
{
    let l = list_place(image, index).unwrap_or(NONE_LISTED);
    &image[l.name.offset..l.name.offset + l.name.length]
}
