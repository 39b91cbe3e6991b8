// What a record's name tells.
ghost use Rattle.std.specs.Prelude.{◌≡◌, ◌<◌, ◌^◌};
ghost use Rattle.spec.specs.Record.{name_of};
ghost use Rattle.chain.specs.Rest.{entry_of};
ghost use Rattle.chain.specs.Fold.{Whole};
ghost use Rattle.filter.specs.Marks.{MarkedAs};
ghost use Rattle.reading.specs.Sought.{hash_of};

use chain::Spot;
use filter::NameMarks;
use filter::hash::hash;
use filter::marks::marks;

// The hash of a record's name.
pub fn hash_of(image: &[u8], e: Spot) -> u64
    requires { Whole image.now e }
    ensures { (result ≡ hash_of (entry_of image.now e)) × (result < 2 ^ 32) }
{
    hash(e.name(image))
}

// The record's name, read to the end of its last word, which is padded.
pub fn marks_of(image: &[u8], e: Spot) -> NameMarks
    requires { Whole image.now e × (e.n < 64) }
    ensures { MarkedAs (name_of (entry_of image.now e)) result }
{
    marks(&image[e.at + 8..], e.n)
}
