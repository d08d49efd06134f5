// Committed pages of a store written as SQLite's write-ahead log, from C: one frame for each page listed, built in its place
// in the lent target. The store is only read: no frame bytes, no page-sized copy. A refusal leaves the target as it was.
#![tactic(auto)]

ghost use Rattle.std.specs.Prelude.{◌≡◌, ℕ, true, [], ◌++◌, ◌+◌, ◌*◌, ◌-◌, ◌≤◌, ◌<◌, length, take, drop, MatchOption};
ghost use Rattle.record.specs.Rows.{rows, keep};
ghost use Rattle.record.specs.Record.{online_width, committed_on, applied};
ghost use Rattle.rules.specs.Areas.{areas, areas_of};
ghost use Rattle.wal.specs.Layout.{frame_size};
ghost use Rattle.wal.specs.Written.{image_sums, frame_bytes, frames_bytes, written};
ghost use Rattle.walwrite.specs.Image.{image_in};
ghost use Rattle.walwrite.specs.declared.Why.TheVariants.{Store};
ghost use Rattle.walwrite.specs.Write.{reply_of_why, listed, may_write, judge_write, write_call};

use layout::read;
use number::PageNo;
use record::row;
use record::row::OnlineRow;
use rules::{Answer, Areas, Bad, Counts, Refusal, Reply};
use wal::{Header, Sums};

// Why no log is written, in the order in which it is judged.
#[derive(Clone, Copy, Debug, PartialEq, Eq)]
pub enum Why {
    Store(Refusal),
    ShortTarget,
    EmptyList,
}

impl From<Refusal> for Why {
    ghost from_gives = { λ r w. w ≡ Store r };

    fn from(refusal: Refusal) -> Why {
        Why::Store(refusal)
    }
}

impl From<Why> for Reply {
    ghost from_gives = { λ why reply. reply ≡ reply_of_why why };

    fn from(why: Why) -> Reply {
        let code = match why {
            Why::Store(r) => u32::from(r.number()),
            Why::ShortTarget => 14,
            Why::EmptyList => 15,
        };
        Reply {
            code,
            note: 0,
            reads: 0,
            writes: 0,
            logs: 0,
        }
    }
}

// Every page listed is below the pages.
fn all_below(list: &[u32], pages: u32) -> bool
    ensures { result ≡ listed pages list.now }
{
    for p in list {
        if pages <= *p {
            return false;
        }
    }
    true
}

// The refusals after soundness.
#[tactic(auto, unfolding(crate::specs::Write::may_write, crate::specs::Write::refuse_if))]
fn may_write(size: usize, pages: u32, list: &[u32], room: usize, order: u32) -> Result<(), Why>
    requires { size ≤ 4096 }
    ensures { result ≡ may_write size pages list.now room order }
{
    if !all_below(list, pages) {
        return Err(Refusal::Argument(Bad::Page).into());
    }
    if 1 < order {
        return Err(Refusal::Argument(Bad::Parameter).into());
    }
    let n = list.len();
    if 4294967295 < n {
        return Err(Refusal::Argument(Bad::Parameter).into());
    }
    if room < 32 + n * (24 + size) {
        return Err(Why::ShortTarget);
    }
    if n == 0 {
        return Err(Why::EmptyList);
    }
    Ok(())
}

fn judge_write(lent: &Areas<'_>, list: &[u32], room: usize, order: u32) -> Result<(), Why>
    ensures { result ≡ judge_write (areas_of lent.now) list.now room order }
{
    if !sound::is_sound(lent) {
        return Err(Refusal::NotSound.into());
    }
    let given = layout::params_of(lent.fixed);
    may_write(given.size as usize, given.pages as u32, list, room, order)
}

// The pages as they are read: their size and count, the stored pages, and the rows of the online table.
#[derive(Clone, Copy)]
struct Pages<'a> {
    size: usize,
    count: u32,
    stored: &'a [u8],
    online: &'a [OnlineRow],
    ghost small: { (size ≤ 4096) × (count ≤ 1024) },
    ghost all_stored: { length stored.now ≡ size * count },
}

// The first row of page p. Most rows are of other pages: this loop passes them by.
fn next_of(online: &[OnlineRow], p: PageNo) -> Option<usize>
    ensures { MatchOption result (keep (committed_on p.0) online.now ≡ []) (λ i. (i < length online.now) × (keep (committed_on p.0) online.now ≡ keep (committed_on p.0) (drop i online.now))) }
{
    online.iter().position(|row| row::page_of(row) == p)
}

// The page g with its committed rows applied in table order.
fn fold(online: &[OnlineRow], p: PageNo, g: &mut [u8])
    ensures { g.new ≡ applied (keep (committed_on p.0) online.now) g.old }
{
    let mut rest = online;
    while let Some(i) = next_of(rest, p) {
        apply::fold(&rest[i..i + 1], p, true, g);
        rest = &rest[i + 1..];
    }
}

impl Pages<'_> {
    // A page's image in its place: the stored page with its committed online records applied in table order.
    #[tactic(auto, using(crate::proofs::Laws::image_put))]
    fn put_image(&self, p: PageNo, g: &mut [u8])
        requires { (length g.old ≡ self.now.size) × (p.0 < self.now.count) }
        ensures { g.new ≡ image_in self.now.size self.now.stored.now self.now.online.now p.0 }
    {
        let a = p.0 * self.size;
        let e = a + self.size;
        fill::copy(g, &self.stored[a..e]);
        fold(self.online, p, g);
    }
}

// The frame of a page, numbered from 1 there; the sums gone on over it.
fn write_frame(f: &mut [u8], h: Header, s: Sums, pages: &Pages, p: PageNo, commit: u32) -> Sums
    requires { (length f.old ≡ frame_size h) × (h.size ≡ pages.now.size) × (p.0 < pages.now.count) }
    ensures { (f.new ≡ frame_bytes h s (p.0 + 1) commit (image_in pages.now.size pages.now.stored.now pages.now.online.now p.0)) × (result ≡ image_sums h s (p.0 + 1) commit (image_in pages.now.size pages.now.stored.now pages.now.online.now p.0)) }
{
    pages.put_image(p, &mut f[24..]);
    wal::write::write_fields(f, h, s, p.0 as u32 + 1, commit)
}

// The frames behind the header; the last one's commit field is the page count.
fn write_frames(target: &mut [u8], h: Header, pages: &Pages, list: &[u32])
    requires { (32 + length list.now * (24 + pages.now.size) ≤ length target.old) × (h.size ≡ pages.now.size) × (listed pages.now.count list.now ≡ true) }
    ensures { target.new ≡ take 32 target.old ++ (frames_bytes h (image_in pages.now.size pages.now.stored.now pages.now.online.now) pages.now.count list.now h.sums ++ drop (32 + length (frames_bytes h (image_in pages.now.size pages.now.stored.now pages.now.online.now) pages.now.count list.now h.sums)) target.old) }
{
    let w = 24 + pages.size;
    let n = list.len();
    let mut sums = h.sums;
    for (i, p) in list.iter().enumerate() {
        let at = 32 + i * w;
        let e = at + w;
        let commit = if i + 1 == n { pages.count } else { 0 };
        sums = write_frame(
            &mut target[at..e],
            h,
            sums,
            pages,
            PageNo(*p as usize),
            commit,
        );
    }
}

// The log in the target: header, then frames.
fn write_log(
    target: &mut [u8],
    pages: &Pages,
    list: &[u32],
    salt1: u32,
    salt2: u32,
    sequence: u32,
    big: bool,
)
    requires { (32 + length list.now * (24 + pages.now.size) ≤ length target.old) × (listed pages.now.count list.now ≡ true) }
    ensures { target.new ≡ written big pages.now.size sequence salt1 salt2 (image_in pages.now.size pages.now.stored.now pages.now.online.now) pages.now.count list.now ++ drop (length (written big pages.now.size sequence salt1 salt2 (image_in pages.now.size pages.now.stored.now pages.now.online.now) pages.now.count list.now)) target.old }
{
    let h = wal::write::write_header(target, big, pages.size as u32, sequence, salt1, salt2);
    write_frames(target, h, pages, list);
}

// Writes the log of the listed pages (from 0 here, from 1 there) to the front of the target.
pub fn ventarico_wal_write(
    fixed: &[u8],
    marks: &[u8],
    log: &[u8],
    stored: &[u8],
    tables: &[u8],
    online: &[u8],
    pool: &[u8],
    list: &[u32],
    target: &mut [u8],
    salt_1: u32,
    salt_2: u32,
    sequence: u32,
    order: u32,
) -> Reply
    ensures { record { reply = result; target = target.new } ≡ write_call (areas fixed.now marks.now log.now stored.now tables.now online.now pool.now) list.now target.old salt_1 salt_2 sequence order }
{
    let room = target.len();
    let lent = Areas {
        fixed,
        marks,
        log,
        stored,
        tables,
        online,
        pool,
    };
    match judge_write(&lent, list, room, order) {
        Err(why) => Reply::from(why),
        Ok(()) => {
            let given = layout::params_of(fixed);
            let pages = Pages {
                size: given.size as usize,
                count: given.pages as u32,
                stored,
                online: row::first_rows::<{ record::ONLINE_WIDTH }>(online, read::count_of(tables)),
            };
            write_log(target, &pages, list, salt_1, salt_2, sequence, order == 1);
            Reply::from(Answer::Done(Counts {
                reads: list.len() as u32,
                writes: 0,
                logs: 0,
            }))
        }
    }
}
