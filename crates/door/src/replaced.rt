// The file that a put replaces.
ghost use Rattle.std.specs.Prelude.{◌≡◌, length};
ghost use Rattle.laws.specs.Length.{InRange};
ghost use Rattle.chain.specs.Seek.{found_in, FoundWhole};
ghost use Rattle.writing.specs.Old.{old_of, Lies};

use chain::Spot;
use spec::Status;
use writing::OldFile;

// The file that a put replaces, done or planned: the one that was found.
pub fn old_file(image: &[u8], f: Option<Spot>) -> Option<OldFile>
    requires { FoundWhole image.now f × InRange (length image.now) }
    ensures { (result ≡ old_of (found_in image.now f)) × Lies result (length image.now) }
{
    let Spot { at, .. } = f?;
    let status = Status::from_byte(image[at + 2]);
    Some(OldFile { at, status })
}
