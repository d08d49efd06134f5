// Numbers of 1 to 8 bytes in a byte slice, lowest byte first: read and written at a place.
// Nothing else of the slice changes. The caller shows that the place is within the slice.
#![tactic(auto)]

pub mod big;

ghost use Rattle.std.specs.Prelude.{◌≡◌, ◌+◌, ◌≤◌, ◌<◌, ◌^◌, length};
ghost use Rattle.word.specs.Word.{num, put};

// The number that w bytes hold from the place `at`.
#[tactic(auto, using(crate::proofs::Laws::num_none, crate::proofs::Laws::load_done))]
pub fn load(s: &[u8], at: usize, w: usize) -> u64
    requires { (w ≤ 8) × (at + w ≤ length s.now) }
    ensures { (result ≡ num w s.now at) × (result < 256 ^ w) }
{
    let mut n: u64 = 0;
    // n is the number of the bytes from at + i on, up to at + w
    for i in (0..w).rev() {
        n = n * 256 + u64::from(s[at + i]);
    }
    n
}

// Writes the w lowest bytes of v from the place `at`.
#[tactic(auto, using(crate::proofs::Laws::put_none, crate::proofs::Laws::put_turn))]
pub fn store(s: &mut [u8], at: usize, w: usize, v: u64)
    requires { (w ≤ 8) × (at + w ≤ length s.old) }
    ensures { s.new ≡ put w s.old at v }
{
    let mut x = v;
    // x is what is left of v once i bytes are written
    for i in 0..w {
        s[at + i] = (x % 256) as u8;
        x /= 256;
    }
}
