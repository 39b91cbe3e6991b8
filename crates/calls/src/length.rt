// Length: how long the file of a name is, from the head that mount reported, by headers and names alone. No data byte is read.
ghost use Rattle.std.specs.Prelude.{◌≡◌};
ghost use Rattle.spec.specs.Numbers.{outcome_of};
ghost use Rattle.spec.specs.Length.{length_asked, file_length};
ghost use Rattle.headers.specs.Sizes.{answered};
ghost use Rattle.calls.specs.Length.{sized};

use door::good_length;
use headers::measure::measure;
use record::name::check_name;
use spec::Refusal;

// 22 as get has it: the image's length, then the name; then the walk.
fn asked(image: &[u8], head: usize, name: &[u8]) -> Result<usize, Refusal>
    ensures { answered result ≡ length_asked name.now head image.now }
{
    if !good_length(image.len()) {
        return Err(Refusal::BadLength);
    }
    check_name(name)?;
    measure(image, head, name)
}

// The length of the file of this name, from this head on.
pub fn file_length(image: &[u8], head: usize, name: &[u8]) -> Result<usize, Refusal>
    ensures { outcome_of (sized result) image.exit.now
        ≡ file_length image.now head name.now }
{
    asked(image, head, name)
}
