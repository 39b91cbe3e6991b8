// The hash of a name: of the bytes that make no whole word, which come first, and then of word after word.
ghost use Rattle.std.specs.Prelude.{◌≡◌, ◌<◌, ◌^◌, length};
ghost use Rattle.record.specs.Digits.{number};
ghost use Rattle.filter.specs.Hash.{folded, mixed, name_hash};

// No name has this hash or a higher one.
pub const HASH_LIMIT: u64 = 0x1_0000_0000;

// Both halves, added.
fn folded(y: u64) -> u64
    ensures { (result ≡ folded y) × (result < 2 ^ 33) }
{
    y / HASH_LIMIT + y % HASH_LIMIT
}

// The hash with one word more: its halves are multiplied each by its own factor, so that neither product waits for the other, and the
// halves of the sum are added. The factors, as that of the table, are primes that xxHash has; they are small enough for every sum to fit.
pub fn mixed(h: u64, w: u64) -> u64
    requires { h < 2 ^ 33 }
    ensures { (result ≡ mixed h w) × (result < 2 ^ 33) }
{
    folded((w % HASH_LIMIT + h) * 0x1656_67B1 + w / HASH_LIMIT * 0x27D4_EB2F)
}

// Fewer than eight bytes as one number, the first the lowest.
fn joined(bytes: &[u8]) -> u64
    requires { length bytes.now < 8 }
    ensures { result ≡ number bytes.now }
{
    bytes.iter().rev().fold(0, |w, &b| w << 8 | u64::from(b))
}

pub fn hash(name: &[u8]) -> u64
    ensures { (result ≡ name_hash name.now) × (result < 2 ^ 32) }
{
    let (front, words) = name.as_rchunks::<8>();
    let mut h = mixed(0, joined(front));
    for word in words {
        h = mixed(h, u64::from_le_bytes(*word));
    }
    h % HASH_LIMIT
}
