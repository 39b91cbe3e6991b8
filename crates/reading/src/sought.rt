// The file of a name, found in the pass of a judgement: the pass keeps the first file whose name has the same hash.
ghost use Rattle.std.specs.Prelude.{◌≡◌};
ghost use Rattle.spec.specs.Basics.{keep, first_such};
ghost use Rattle.spec.specs.Files.{has_name};
ghost use Rattle.chain.specs.Cursor.{CursorSound};
ghost use Rattle.chain.specs.Rest.{rest};
ghost use Rattle.chain.specs.FileLaws.{is_file};
ghost use Rattle.chain.specs.Seek.{found_in, FoundWhole};
ghost use Rattle.filter.specs.Hash.{name_hash};
ghost use Rattle.reading.specs.Sought.{not_seen, found_of, seen_or, Sought};

use crate::Sight;
use chain::files::{file_named, has_name};
use chain::{Cursor, Spot};

pub fn not_seen() -> Sight
    ensures { result ≡ not_seen }
{
    Sight {
        seen: 0,
        spot: Spot { at: 0, n: 0, d: 0 },
    }
}

pub fn found_of(f: Sight) -> Option<Spot>
    ensures { result ≡ found_of f }
{
    if f.seen == 0 {
        return None;
    }
    Some(f.spot)
}

// What was seen; or e, where it is the first that fits. Field by field, so that the compiler keeps them apart.
pub fn seen_or(fits: bool, f: Sight, e: Spot) -> Sight
    ensures { result ≡ seen_or fits f e }
{
    if fits && f.seen == 0 {
        return Sight {
            seen: 1,
            spot: Spot {
                at: e.at,
                n: e.n,
                d: e.d,
            },
        };
    }
    let x = f.spot;
    Sight {
        seen: f.seen,
        spot: Spot {
            at: x.at,
            n: x.n,
            d: x.d,
        },
    }
}

// The file of this name: f, which has the name's hash, unless the two names only share it.
pub fn file_of(image: &[u8], start: Cursor, name: &[u8], f: Option<Spot>) -> Option<Spot>
    requires { CursorSound image.now start
        × Sought image.now (name_hash name.now) (rest image.now start).entries f }
    ensures { (found_in image.now result
        ≡ first_such (has_name name.now) (keep is_file (rest image.now start).entries))
        × FoundWhole image.now result }
{
    let e = f?;
    if has_name(image, e, name) {
        return Some(e);
    }
    file_named(image, start, name)
}
