// A Bloom filter over names, and what is read of a name at once: whether it is a good one, its hash, its bits in the table.
// A name is read by words of eight bytes. No answer of the store depends on how well the hash spreads.
#![tactic(auto)]

pub mod hash;
pub mod marks;
pub mod table;

// What a name sets in the table of bits: the same bits of three words.
#[derive(Clone, Copy)]
pub struct Signature {
    pub bits: u64,
    pub first: usize,
    pub second: usize,
    pub third: usize,
}

// Whether a name is a good one, and its hash.
#[derive(Clone, Copy)]
pub struct NameMarks {
    pub fine: bool,
    pub hash: u64,
}

// What was seen of a name's bytes so far: their hash, and whether all of them can be read.
#[derive(Clone, Copy)]
pub struct Looked {
    pub hash: u64,
    pub readable: bool,
}
