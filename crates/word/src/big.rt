// Numbers of 4 bytes, highest byte first.
ghost use Rattle.std.specs.Prelude.{◌≡◌, ◌+◌, ◌≤◌, ◌++◌, length, take, drop};
ghost use Rattle.word.specs.Word.{big, bytes_of};

// The number at a place.
#[tactic(auto, unfolding(crate::specs::Word::big))]
pub fn load(s: &[u8], at: usize) -> u32
    requires { at + 4 ≤ length s.now }
    ensures { result ≡ big s.now at }
{
    u32::from_be_bytes([s[at], s[at + 1], s[at + 2], s[at + 3]])
}

// The number v at a place; nothing else changes.
#[tactic(auto, using(crate::proofs::Bigs::stored), unfolding(crate::specs::Word::bytes_of))]
pub fn store(s: &mut [u8], at: usize, v: u32)
    requires { at + 4 ≤ length s.old }
    ensures { s.new ≡ take at s.old ++ (bytes_of v ++ drop (at + 4) s.old) }
{
    let b = v.to_be_bytes();
    s[at] = b[0];
    s[at + 1] = b[1];
    s[at + 2] = b[2];
    s[at + 3] = b[3];
}
