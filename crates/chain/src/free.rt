// The free run, and the bytes of it that must be FF. A run of FF that is known already is not tested again.
ghost use Rattle.std.specs.Prelude.{◌≡◌, ◌≤◌, length};
ghost use Rattle.spec.specs.Reading.{blank_part, free_blank, tail_blank};
ghost use Rattle.chain.specs.FreeLaws.{InImage, free_by};
ghost use Rattle.chain.specs.HeadSkip.{BlankThere};

use crate::Stretch;
use spec::{Place, SECTOR, floor};

// The bytes from a up to b are FF; none are, where b is not past a.
fn blank_part(image: &[u8], a: usize, b: usize) -> bool
    requires { b ≤ length image.now }
    ensures { result ≡ blank_part a b image.now }
{
    b <= a || flash::is_blank(&image[a..b])
}

// The same, where known is a run of FF.
fn blank_beside(image: &[u8], known: Stretch, a: usize, b: usize) -> bool
    requires { BlankThere image.now known × (b ≤ length image.now) }
    ensures { result ≡ blank_part a b image.now }
{
    if known.from <= a && a < known.to {
        return b <= known.to;
    }
    blank_part(image, a, b)
}

fn free_blank(image: &[u8], known: Stretch, p: Place) -> bool
    requires { BlankThere image.now known × InImage image.now p }
    ensures { result ≡ free_blank image.now p }
{
    let low = floor(p.head);
    if p.turned {
        return blank_beside(image, known, p.tail, low);
    }
    blank_beside(image, known, 0, low) && blank_beside(image, known, p.tail, p.length)
}

fn tail_blank(image: &[u8], known: Stretch, p: Place) -> bool
    requires { BlankThere image.now known × InImage image.now p }
    ensures { result ≡ tail_blank image.now p }
{
    let end = floor(p.tail) + SECTOR;
    blank_beside(image, known, p.tail, end.min(p.limit()))
}

// The free run is FF; behind a CLEAN head only as far as the tail's own sector.
pub fn free_ok(image: &[u8], known: Stretch, clean: bool, p: Place) -> bool
    requires { BlankThere image.now known × InImage image.now p }
    ensures { result ≡ free_by clean image.now p }
{
    if clean {
        return tail_blank(image, known, p);
    }
    free_blank(image, known, p)
}
