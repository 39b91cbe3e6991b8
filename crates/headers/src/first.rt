// The first FC record and the first F8 record of a name.
ghost use Rattle.std.specs.Prelude.{◌≡◌, None};
ghost use Rattle.spec.specs.Basics.{refuse};
ghost use Rattle.spec.specs.Length.{of_name};
ghost use Rattle.chain.specs.Rest.{entry_of};
ghost use Rattle.chain.specs.Fold.{Whole};
ghost use Rattle.headers.specs.Sizes.{answered, no_sizes, first_of, noted, best};

use crate::Sizes;
use chain::Spot;
use chain::files::{has_name, named};
use spec::{Refusal, Status};

// Before the first record.
pub fn no_sizes() -> Sizes
    ensures { result ≡ no_sizes }
{
    Sizes {
        committed: None,
        migrating: None,
    }
}

// The record has this status and this name.
fn of_name(image: &[u8], status: Status, name: &[u8], e: Spot) -> bool
    requires { Whole image.now e }
    ensures { result ≡ of_name status.byte name.now (entry_of image.now e) }
{
    named(image, status, e) && has_name(image, e, name)
}

// What was found before; or d, where it fits.
fn first_of(x: Option<usize>, fits: bool, d: usize) -> Option<usize>
    ensures { result ≡ first_of x fits d }
{
    x.or(fits.then_some(d))
}

// With one record more.
pub fn noted(image: &[u8], name: &[u8], x: Sizes, e: Spot) -> Sizes
    requires { Whole image.now e }
    ensures { result ≡ noted name.now x (entry_of image.now e) }
{
    let fc = of_name(image, Status::COMMITTED, name, e);
    let f8 = of_name(image, Status::MIGRATING, name, e);
    Sizes {
        committed: first_of(x.committed, fc, e.d),
        migrating: first_of(x.migrating, f8, e.d),
    }
}

// The first FC record's length, else the first F8 record's, else 2.
pub fn best(x: Sizes) -> Result<usize, Refusal>
    ensures { answered result ≡ best x }
{
    x.committed.or(x.migrating).ok_or(Refusal::NoFile)
}
