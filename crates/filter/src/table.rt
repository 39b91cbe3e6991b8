// A Bloom filter over names: a table of bits, of which each name sets a few. A name whose bits are not all set was not added before.
ghost use Rattle.std.specs.Prelude.{◌≡◌, ◌<◌, ◌^◌};
ghost use Rattle.filter.specs.Table.{three_bits, signature_by, InTable, has, with};

use crate::Signature;

// The words of the table, 4 KiB. Of 2,048 names one is taken for added before that was not, three times in ten.
pub const WORDS: usize = 512;

// Up to three bits, each chosen by six bits of z.
fn three_bits(z: u64) -> u64
    ensures { result ≡ three_bits z }
{
    1 << (z / 0x8000_0000 % 64) | 1 << (z / 0x200_0000 % 64) | 1 << (z / 0x8_0000 % 64)
}

// The words of a name with this hash, and the bits that it sets there. One product tells: nine of its bits choose a word, six a bit.
pub fn signature_by(h: u64) -> Signature
    requires { h < 2 ^ 32 }
    ensures { (result ≡ signature_by h) × InTable result }
{
    let z = h * 0xC2B2_AE3D;
    Signature {
        bits: three_bits(z),
        first: (z / 0x80_0000_0000_0000) as usize,
        second: (z / 0x4000_0000_0000 % 512) as usize,
        third: (z / 0x20_0000_0000 % 512) as usize,
    }
}

// Sets the bits, and says whether all of them were set.
pub fn add(table: &mut [u64; WORDS], s: Signature) -> bool
    requires { InTable s }
    ensures { (result ≡ has table.old s) × (table.new ≡ with table.old s) }
{
    let x = table[s.first];
    let y = table[s.second];
    let z = table[s.third];
    table[s.first] |= s.bits;
    table[s.second] |= s.bits;
    table[s.third] |= s.bits;
    x & s.bits == s.bits && y & s.bits == s.bits && z & s.bits == s.bits
}
