// Whether a record can stand at its place in a settled chain, taken by itself.
ghost use Rattle.std.specs.Prelude.{◌≡◌, ◌&&◌, not};
ghost use Rattle.spec.specs.Bytes.{is_unfinished};
ghost use Rattle.spec.specs.Length.{right_mark, stands};
ghost use Rattle.chain.specs.Rest.{entry_of};
ghost use Rattle.chain.specs.Fold.{Whole};

use chain::Spot;
use chain::scan::{low_of, name_fine};
use chain::walk::unfinished;
use record::bytes::is_record;
use spec::START;

// At the head START, behind it a plain record's first byte.
fn right_mark(first: bool, low: u8) -> bool
    ensures { result ≡ right_mark first low }
{
    if first {
        return low == START;
    }
    is_record(low)
}

// The magic is right, and the record is neither torn nor reserved.
fn right_header(image: &[u8], first: bool, e: Spot) -> bool
    requires { Whole image.now e }
    ensures { result
        ≡ (right_mark first (entry_of image.now e).it.low
        && not (is_unfinished (entry_of image.now e).it.status)) }
{
    right_mark(first, low_of(image, e)) && !unfinished(image, e.at)
}

// Its magic, its status and its name may stand there; first: at the head.
pub fn stands(image: &[u8], first: bool, e: Spot) -> bool
    requires { Whole image.now e }
    ensures { result ≡ stands first (entry_of image.now e) }
{
    right_header(image, first, e) && name_fine(image, e)
}
