// SQLite's write-ahead logs judged, from C: how many frames are valid, where the last commit frame ends, where a page's last
// image begins. Any bytes of any length are taken. One pass, with a few numbers kept; no room that grows with the log.
#![tactic(auto)]

ghost use Rattle.std.specs.Prelude.{◌≡◌, ◌+◌, ◌≤◌, ◌<◌, ◌^◌, length, Ok};
ghost use Rattle.wal.specs.Layout.{opened, valid_frames};
ghost use Rattle.waljudge.specs.Pass.{started, taken, passed};
ghost use Rattle.waljudge.specs.Judge.{bad_code, judged_by, judged, found_by, found_in};

use rules::{Bad, Refusal};
use wal::{BadHeader, Header, Seen};

// The answer of judging, as C has it.
#[repr(C)]
#[derive(Clone, Copy)]
pub struct Judged {
    pub code: u32,
    pub frames: u64,
    pub end: u64,
}

// The answer of looking for a page, as C has it.
#[repr(C)]
#[derive(Clone, Copy)]
pub struct Found {
    pub code: u32,
    pub found: u32,
    pub at: u64,
}

impl Found {
    // No image: none there, or the call is refused.
    fn none(code: u32) -> Found
        ensures { result ≡ record { code = code; found = 0; at = 0 } }
    {
        Found {
            code,
            found: 0,
            at: 0,
        }
    }
}

// What the frames passed come to: how many, where the last commit frame ends, where the page's last image up to there
// begins, and where its last image of all begins.
#[derive(Clone, Copy, Default)]
pub struct Pass {
    pub frames: usize,
    pub end: Option<usize>,
    pub at: Option<usize>,
    pub pending: Option<usize>,
}

impl Pass {
    // A frame more, whose image begins at a place.
    #[tactic(auto, unfolding(crate::specs::Pass::taken))]
    fn with(self, f: Seen, place: usize, size: usize, page: u32) -> Pass
        requires { (self.frames < place) × (place + size < 2 ^ 64) }
        ensures { result ≡ taken page size (record { page = f.page; commit = f.commit; place = place }) self }
    {
        let pending = if f.page == page {
            Some(place)
        } else {
            self.pending
        };
        let (end, at) = if f.commit == 0 {
            (self.end, self.at)
        } else {
            (Some(place + size), pending)
        };
        Pass {
            frames: self.frames + 1,
            end,
            at,
            pending,
        }
    }
}

// The pass over the valid frames behind a good header.
fn pass_over(file: &[u8], h: Header, page: u32) -> Pass
    requires { (32 ≤ length file.now) × (h.size ≤ 65536) }
    ensures { result ≡ passed page h.size (valid_frames h file.now) started }
{
    let w = 24 + h.size;
    let mut at = 32;
    let mut sums = h.sums;
    let mut a = Pass::default();
    for f in file[32..].chunks_exact(w) {
        let Some(seen) = wal::open::look(f, h, sums) else {
            break;
        };
        a = a.with(seen, at + 24, h.size, page);
        sums = seen.sums;
        at += w;
    }
    a
}

#[tactic(auto, using(crate::proofs::Passes::good_ask, crate::proofs::Passes::judged_as))]
fn judged_by(file: &[u8], h: Header) -> Judged
    requires { opened file.now ≡ Ok h }
    ensures { result ≡ judged_by file.now (Ok h) }
{
    let a = pass_over(file, h, 0);
    Judged {
        code: 0,
        frames: a.frames as u64,
        end: a.end.unwrap_or(0) as u64,
    }
}

#[tactic(auto, using(crate::proofs::Passes::good_ask, crate::proofs::Passes::found_none, crate::proofs::Passes::found_some))]
fn found_by(file: &[u8], h: Header, page: u32) -> Found
    requires { opened file.now ≡ Ok h }
    ensures { result ≡ found_by file.now page (Ok h) }
{
    match pass_over(file, h, page).at {
        Some(at) => Found {
            code: 0,
            found: 1,
            at: at as u64,
        },
        None => Found::none(0),
    }
}

fn bad_code(e: BadHeader) -> u32
    ensures { result ≡ bad_code e }
{
    match e {
        BadHeader::Field => 16,
        BadHeader::Sum => 17,
    }
}

// Judges a whole file: header at 0, frames behind it.
#[tactic(auto, unfolding(crate::specs::Judge::judged))]
pub fn ventarico_wal_judge(file: &[u8]) -> Judged
    ensures { result ≡ judged file.now }
{
    match wal::open::open(file) {
        Ok(h) => judged_by(file, h),
        Err(e) => Judged {
            code: bad_code(e),
            frames: 0,
            end: 0,
        },
    }
}

// Where the last image of a page (from 1) begins, frames behind the last commit frame left out.
#[tactic(auto, unfolding(crate::specs::Judge::found_in))]
pub fn ventarico_wal_find(file: &[u8], page: u32) -> Found
    ensures { result ≡ found_in file.now page }
{
    if page == 0 {
        return Found::none(u32::from(Refusal::Argument(Bad::Page).number()));
    }
    match wal::open::open(file) {
        Ok(h) => found_by(file, h, page),
        Err(e) => Found::none(bad_code(e)),
    }
}
