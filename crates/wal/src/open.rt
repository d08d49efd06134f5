// A log opened: its header, and a frame looked at.
ghost use Rattle.std.specs.Prelude.{◌≡◌, ◌+◌, ◌≤◌, ◌&&◌, length, ◌==◌};
ghost use Rattle.word.specs.Word.{big as field};
ghost use Rattle.wal.specs.Layout.{is_page_size, is_header, head_in, holds_sums, opened, frame_size, frame_sums, seen};

use crate::{BIG_MAGIC, BadHeader, Header, LITTLE_MAGIC, Seen, Sums, VERSION};
use word::big;

#[tactic(auto, unfolding(crate::specs::Layout::is_page_size))]
fn is_page_size(n: u32) -> bool
    ensures { result ≡ is_page_size n }
{
    matches!(n, 512 | 1024 | 2048 | 4096 | 8192 | 16384 | 32768 | 65536)
}

// Magic number, version and page size.
#[tactic(auto, unfolding(crate::specs::Layout::is_header))]
fn is_header(file: &[u8]) -> bool
    requires { 32 ≤ length file.now }
    ensures { result ≡ is_header file.now }
{
    let magic = big::load(file, 0);
    let version = big::load(file, 4);
    let size = big::load(file, 8);
    (magic == LITTLE_MAGIC || magic == BIG_MAGIC) && version == VERSION && is_page_size(size)
}

#[tactic(auto, unfolding(crate::specs::Layout::head_in))]
fn head_in(file: &[u8]) -> Header
    requires { 32 ≤ length file.now }
    ensures { result ≡ head_in file.now }
{
    let big = big::load(file, 0) == BIG_MAGIC;
    let size = big::load(file, 8) as usize;
    let salt1 = big::load(file, 16);
    let salt2 = big::load(file, 20);
    let sums = crate::sum(file, 0, 3, big, Sums { s0: 0, s1: 0 });
    Header {
        big,
        size,
        salt1,
        salt2,
        sums,
    }
}

// Two fields, one behind the other, hold these numbers.
fn holds_pair(s: &[u8], at: usize, v: u32, w: u32) -> bool
    requires { at + 8 ≤ length s.now }
    ensures { result ≡ (field s.now at == v && field s.now (at + 4) == w) }
{
    let a = big::load(s, at);
    let b = big::load(s, at + 4);
    a == v && b == w
}

// The header of any bytes, judged.
#[tactic(auto, unfolding(crate::specs::Layout::opened))]
pub fn open(file: &[u8]) -> Result<Header, BadHeader>
    ensures { result ≡ opened file.now }
{
    if file.len() < 32 || !is_header(file) {
        return Err(BadHeader::Field);
    }
    let h = head_in(file);
    if !holds_pair(file, 24, h.sums.s0, h.sums.s1) {
        return Err(BadHeader::Sum);
    }
    Ok(h)
}

// The sums gone on over a frame.
#[tactic(auto, unfolding(crate::specs::Layout::frame_sums))]
pub fn frame_sums(f: &[u8], h: Header, s: Sums) -> Sums
    requires { frame_size h ≤ length f.now }
    ensures { result ≡ frame_sums h s f.now }
{
    let head = crate::sum(f, 0, 1, h.big, s);
    crate::sum(f, 24, h.size / 8, h.big, head)
}

// A whole frame, with the sums before it: salts first, then its sums. None where validity stops.
#[tactic(auto, unfolding(crate::specs::Layout::is_valid, crate::specs::Layout::seen))]
pub fn look(f: &[u8], h: Header, s: Sums) -> Option<Seen>
    requires { frame_size h ≤ length f.now }
    ensures { result ≡ seen h s f.now }
{
    if !holds_pair(f, 8, h.salt1, h.salt2) {
        return None;
    }
    let sums = frame_sums(f, h, s);
    if !holds_pair(f, 16, sums.s0, sums.s1) {
        return None;
    }
    let page = big::load(f, 0);
    let commit = big::load(f, 4);
    Some(Seen { page, commit, sums })
}
