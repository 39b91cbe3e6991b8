// Eight bytes at a time: a word is eight neighbours as one number, the first the lowest.
ghost use Rattle.std.specs.Prelude.{◌≡◌, false, ◌+◌, ◌*◌, ◌≤◌, ◌<◌, ◌^◌, length, take, drop};
ghost use Rattle.spec.specs.Basics.{all};
ghost use Rattle.spec.specs.Record.{name_length};
ghost use Rattle.laws.specs.Spaces.{is_readable};
ghost use Rattle.record.specs.Digits.{number, digits};
ghost use Rattle.record.specs.Filled.{filled};

// The top bit of each byte, and the others. A sum of each byte and 1 has the top bit from 7F on, and one of each byte and 60 from 20 on.
const TOPS: u64 = 0x8080_8080_8080_8080;

const LOWS: u64 = 0x7F7F_7F7F_7F7F_7F7F;

const ONES: u64 = 0x0101_0101_0101_0101;

const SIXTIES: u64 = 0x6060_6060_6060_6060;

// A byte that can be read, eight times.
const LETTERS: u64 = 0x6161_6161_6161_6161;

// The eight bytes from i on: the compiler makes one load of them.
pub fn word_at(part: &[u8], i: usize) -> u64
    requires { i + 8 ≤ length part.now }
    ensures { (digits 8 result ≡ take 8 (drop i part.now)) × (result ≡ number (take 8 (drop i part.now))) }
{
    u64::from_le_bytes(part[i..i + 8].try_into().unwrap())
}

// Whether each byte is 20 to 7E. While no byte has its top bit, no sum runs over into the next one.
#[tactic(auto, using(crate::specs::Readable::sums))]
pub fn all_readable(w: u64) -> bool
    ensures { result ≡ all is_readable (digits 8 w) }
{
    w & TOPS == 0 && (w + ONES) & TOPS == 0 && (w + SIXTIES) & TOPS == TOPS
}

// Which byte is the first 00, from 0 on; 8 if none is. The lower bits of a byte and 7F make its top bit, unless they are all 0.
#[tactic(auto, using(crate::specs::FirstZero::zeros))]
pub fn first_zero(w: u64) -> usize
    ensures { result ≡ name_length 8 false (digits 8 w) }
{
    let written = ((w & LOWS) + LOWS) | w;
    (TOPS - (written & TOPS)).trailing_zeros() as usize / 8
}

// 256 to the k.
#[tactic(auto, using(crate::specs::Filled::shifted))]
fn power(k: usize) -> u64
    requires { k < 8 }
    ensures { (result ≡ 256 ^ k) × (0 < result) × (result ≤ 2 ^ 56) }
{
    1 << (8 * k)
}

// The k lowest bytes.
#[tactic(auto, using(crate::specs::Digits::number_low))]
pub fn low_bytes(w: u64, k: usize) -> u64
    requires { k < 8 }
    ensures { (result ≡ number (take k (digits 8 w))) × (result < 2 ^ 56) }
{
    w % power(k)
}

// The k bytes of w, and letters above them.
pub fn filled(w: u64, k: usize) -> u64
    requires { (k < 8) × (w < 2 ^ 56) }
    ensures { result ≡ filled w k }
{
    w + (LETTERS - LETTERS % power(k))
}
