// A file's name in one pass over its words: whether it is a good one, and its hash.
ghost use Rattle.std.specs.Prelude.{◌≡◌, ◌&&◌, ◌≤◌, ◌<◌, ◌^◌, length, take};
ghost use Rattle.spec.specs.Basics.{all};
ghost use Rattle.record.specs.Digits.{number, digits};
ghost use Rattle.laws.specs.Spaces.{is_readable};
ghost use Rattle.filter.specs.Hash.{mixed};
ghost use Rattle.filter.specs.Marks.{fine_ends, MarkedAs, LookedAt};

use crate::hash::{HASH_LIMIT, mixed};
use crate::{Looked, NameMarks};
use record::words::{all_readable, filled, low_bytes, word_at};

// There is a first byte, and it is no space; and the last is neither a space nor '/'.
fn ends_fine(name: &[u8]) -> bool
    ensures { result ≡ fine_ends name.now }
{
    match name {
        [] | [b' ', ..] => false,
        [.., last] => *last != b' ' && *last != b'/',
    }
}

// The first k bytes, which make no whole word.
fn look(part: &[u8], k: usize) -> Looked
    requires { (k < 8) × (8 ≤ length part.now) }
    ensures { (result.hash ≡ mixed 0 (number (take k part.now))) × (result.hash < 2 ^ 33)
        × (result.readable ≡ all is_readable (take k part.now)) }
{
    let w = low_bytes(word_at(part, 0), k);
    Looked {
        hash: mixed(0, w),
        readable: all_readable(filled(w, k)),
    }
}

impl Looked {
    // With one word more. `&` and not `&&`, here and below: no branch hangs on what the bytes are.
    fn with(self, w: u64) -> Looked
        requires { self.hash < 2 ^ 33 }
        ensures { (result.hash ≡ mixed self.hash w) × (result.hash < 2 ^ 33)
            × (result.readable ≡ (self.readable && all is_readable (digits 8 w))) }
    {
        Looked {
            hash: mixed(self.hash, w),
            readable: self.readable & all_readable(w),
        }
    }
}

// All of the first n bytes.
fn look_all(part: &[u8], n: usize) -> Looked
    requires { (n ≤ length part.now) × (8 ≤ length part.now) }
    ensures { LookedAt (take n part.now) n result }
{
    let (front, words) = part[..n].as_rchunks::<8>();
    let mut x = look(part, front.len());
    for word in words {
        x = x.with(u64::from_le_bytes(*word));
    }
    x
}

// The name of n bytes at the front of the part, which has a word at least.
pub fn marks(part: &[u8], n: usize) -> NameMarks
    requires { (n ≤ 63) × (n ≤ length part.now) × (8 ≤ length part.now) }
    ensures { MarkedAs (take n part.now) result }
{
    let x = look_all(part, n);
    NameMarks {
        fine: x.readable & ends_fine(&part[..n]),
        hash: x.hash % HASH_LIMIT,
    }
}
