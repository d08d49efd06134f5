// Bytes written, copied and moved within a slice.
ghost use Rattle.std.specs.Prelude.{◌≡◌, ◌++◌, ◌+◌, ◌-◌, ◌≤◌, length, take, replicate};
ghost use Rattle.record.specs.Part.{part, with_part};
ghost use Rattle.record.specs.Record.{online_width};

// Zeros from a place to the end.
pub fn clear(s: &mut [u8], from: usize)
    requires { from ≤ length s.old }
    ensures { s.new ≡ take from s.old ++ replicate (length s.old - from) 0 }
{
    fill::wipe(&mut s[from..]);
}

// The n bytes at a place moved down to another, one by one; the two may overlap.
#[tactic(auto, using(crate::proofs::Moves::slide_turn))]
fn slide_bytes(s: &mut [u8], from: usize, to: usize, n: usize)
    requires { (to ≤ from) × (from + n ≤ length s.old) }
    ensures { s.new ≡ with_part to n s.old (part from n s.old) }
{
    for i in 0..n {
        s[to + i] = s[from + i];
    }
}

// N bytes moved down. A copy stands between, so that they can move as words.
fn slide_block<const N: usize>(s: &mut [u8], from: usize, to: usize)
    requires { (to ≤ from) × (from + N ≤ length s.old) }
    ensures { s.new ≡ with_part to N s.old (part from N s.old) }
{
    let mut block = [0u8; N];
    let f = from + N;
    fill::copy(&mut block, &s[from..f]);
    let e = to + N;
    fill::copy(&mut s[to..e], &block);
}

// The n bytes at a place moved down to another; the two may overlap. Where they are the same, nothing is written.
pub fn slide(s: &mut [u8], from: usize, to: usize, n: usize)
    requires { (to ≤ from) × (from + n ≤ length s.old) }
    ensures { s.new ≡ with_part to n s.old (part from n s.old) }
{
    if to == from {
        return;
    }
    let mut i = 0;
    while 64 <= n - i {
        slide_block::<64>(s, from + i, to + i);
        i += 64;
    }
    slide_bytes(s, from + i, to + i, n - i);
}

// An online row moved down as `slide` does, by way of a copy.
pub fn slide_row(s: &mut [u8], from: usize, to: usize)
    requires { (to ≤ from) × (from + online_width ≤ length s.old) }
    ensures { s.new ≡ with_part to online_width s.old (part from online_width s.old) }
{
    if to == from {
        return;
    }
    slide_block::<{ record::ONLINE_WIDTH }>(s, from, to);
}
