// SQLite's write-ahead log: its fields, its running sums, its header and its frames (docs/WAL.md). It knows no store.
// Both byte orders of the words that are summed go by one definition. The caller shows that a place is within the slice.
#![tactic(auto)]

ghost use Rattle.std.specs.Prelude.{◌≡◌, ◌+◌, ◌*◌, ◌≤◌, length};
ghost use Rattle.wal.specs.Sum.{word_at, paired, summed};

use word::big;

// The magic numbers, of words summed lowest byte first and highest byte first, and the version.
pub const LITTLE_MAGIC: u32 = 931071618;

pub const BIG_MAGIC: u32 = 931071619;

pub const VERSION: u32 = 3007000;

// The two running sums.
#[derive(Clone, Copy)]
pub struct Sums {
    pub s0: u32,
    pub s1: u32,
}

// What a header says: whether words are summed highest byte first, the page size, the salts, its own sums.
#[derive(Clone, Copy)]
pub struct Header {
    pub big: bool,
    pub size: usize,
    pub salt1: u32,
    pub salt2: u32,
    pub sums: Sums,
}

// What is wrong with a file's header: a field, or its sums.
#[derive(Clone, Copy, Debug, PartialEq, Eq)]
pub enum BadHeader {
    Field,
    Sum,
}

// A valid frame, looked at: page number, commit field, and the sums after it.
#[derive(Clone, Copy)]
pub struct Seen {
    pub page: u32,
    pub commit: u32,
    pub sums: Sums,
}

// The word at a place, in the byte order of the sums.
#[tactic(auto, unfolding(crate::specs::Sum::word_at))]
fn word_at(s: &[u8], at: usize, big: bool) -> u32
    requires { at + 4 ≤ length s.now }
    ensures { result ≡ word_at big s.now at }
{
    if big {
        big::load(s, at)
    } else {
        word::load(s, at, 4) as u32
    }
}

impl Sums {
    // The sums with a pair of words.
    #[tactic(auto, using(crate::proofs::Laws::pair_wrapped))]
    fn with_pair(self, x: u32, y: u32) -> Sums
        ensures { result ≡ paired self x y }
    {
        let a = self.s0.wrapping_add(x).wrapping_add(self.s1);
        let b = self.s1.wrapping_add(y).wrapping_add(a);
        Sums { s0: a, s1: b }
    }
}

// The sums gone on over n pairs of words from a place.
#[tactic(auto, using(crate::proofs::Laws::sum_none))]
pub fn sum(s: &[u8], at: usize, n: usize, big: bool, from: Sums) -> Sums
    requires { at + 8 * n ≤ length s.now }
    ensures { result ≡ summed big n s.now at from }
{
    let mut sums = from;
    for i in 0..n {
        let x = word_at(s, at + 8 * i, big);
        let y = word_at(s, at + 8 * i + 4, big);
        sums = sums.with_pair(x, y);
    }
    sums
}

pub mod open;
pub mod write;
