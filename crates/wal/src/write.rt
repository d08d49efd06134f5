// A log written: its header, and a frame's fields before its image.
ghost use Rattle.std.specs.Prelude.{◌≡◌, ◌+◌, ◌<◌, ◌≤◌, [], ◌∷◌, ◌++◌, length, take, drop};
ghost use Rattle.wal.specs.Sum.{fields_of};
ghost use Rattle.wal.specs.Layout.{magic_of, frame_size};
ghost use Rattle.wal.specs.Written.{head_of, head_bytes, image_sums, frame_bytes};

use crate::{BIG_MAGIC, Header, LITTLE_MAGIC, Sums, VERSION};
use word::big;

// Two fields, one behind the other.
#[tactic(auto, using(crate::proofs::Puts::pair_put))]
fn put_pair(s: &mut [u8], at: usize, v: u32, w: u32)
    requires { at + 8 ≤ length s.old }
    ensures { s.new ≡ take at s.old ++ (fields_of (v ∷ w ∷ []) ++ drop (at + 8) s.old) }
{
    big::store(s, at, v);
    big::store(s, at + 4, w);
}

// The magic number of a byte order.
fn magic_of(big: bool) -> u32
    ensures { result ≡ magic_of big }
{
    if big { BIG_MAGIC } else { LITTLE_MAGIC }
}

// The header at the front.
pub fn write_header(
    s: &mut [u8],
    big: bool,
    size: u32,
    sequence: u32,
    salt1: u32,
    salt2: u32,
) -> Header
    requires { 32 ≤ length s.old }
    ensures { (s.new ≡ head_bytes big size sequence salt1 salt2 ++ drop 32 s.old) × (result ≡ head_of big size sequence salt1 salt2) }
{
    put_pair(s, 0, magic_of(big), VERSION);
    put_pair(s, 8, size, sequence);
    put_pair(s, 16, salt1, salt2);
    let sums = crate::sum(s, 0, 3, big, Sums { s0: 0, s1: 0 });
    put_pair(s, 24, sums.s0, sums.s1);
    Header {
        big,
        size: size as usize,
        salt1,
        salt2,
        sums,
    }
}

// The fields of a frame whose image stands in its place; the sums gone on over it.
pub fn write_fields(f: &mut [u8], h: Header, s: Sums, page: u32, commit: u32) -> Sums
    requires { frame_size h ≤ length f.old }
    ensures { (f.new ≡ frame_bytes h s page commit (drop 24 f.old)) × (result ≡ image_sums h s page commit (drop 24 f.old)) }
{
    put_pair(f, 0, page, commit);
    put_pair(f, 8, h.salt1, h.salt2);
    let after = crate::open::frame_sums(f, h, s);
    put_pair(f, 16, after.s0, after.s1);
    after
}
