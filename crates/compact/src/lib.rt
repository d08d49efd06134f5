// Compact: a page's committed records are folded into the stored page and leave the online table.
// What is to be done is decided on areas that are lent for reading; then it is done.
#![tactic(auto)]

ghost use Rattle.std.specs.Prelude.{◌≡◌, false, cond, not, ◌&&◌, ◌||◌, ◌+◌, ◌*◌, ◌≤◌, ◌<◌, length, get_or, set, eqb, leb, is_some, IfSome};
ghost use Rattle.record.specs.Part.{part};
ghost use Rattle.record.specs.Rows.{rows, keep, table};
ghost use Rattle.record.specs.Record.{online_width, committed_on, applied};
ghost use Rattle.table.specs.Stays.{stays};
ghost use Rattle.table.specs.Seen.{Surveyed};
ghost use Rattle.rules.specs.Lent.{order_at, used_in, pages_of, online_of, page_in, with_page, with_order, with_count, entry_at};
ghost use Rattle.rules.specs.Areas.{areas};
ghost use Rattle.rules.specs.Shape.{Shaped};
ghost use Rattle.rules.specs.Steps.{due, compacted, compact_step};
ghost use Rattle.frames.specs.Freed.{order_without};
ghost use Rattle.compact.specs.Planned.{Planned, page_from};
ghost use Rattle.compact.specs.Counted.{reads_of, writes_of};

use layout::read;
use number::{FrameNo, PageNo};
use record::row;
use record::row::OnlineRow;
use table::page::Survey;

// Page reads and page writes.
#[derive(Clone, Copy)]
pub struct Compacted {
    pub reads: u32,
    pub writes: u32,
}

// What is to be done to a page: the frame that it is written from, if its own bytes serve, the frame that is freed, if one is,
// the entry and the stamp, and how many reads that takes.
#[derive(Clone, Copy)]
pub struct Plan {
    pub from: Option<FrameNo>,
    pub frees: Option<FrameNo>,
    pub entry: u8,
    pub stamp: u64,
    pub reads: u32,
}

// Due by the count of committed records, or by the age of the oldest.
fn due_by(n: u64, age: u64, min_del: u64, max_age: u64) -> bool
    ensures { result ≡ (leb 1 n && (leb min_del n || leb max_age age)) }
{
    (1 <= n) & ((min_del <= n) | (max_age <= age))
}

// The entry of a page in no frame: absent where all its records were committed, else evicted.
fn bare(committed: usize, all: usize) -> u8
    ensures { result ≡ cond (eqb committed all) 0 1 }
{
    u8::from(committed != all)
}

// The plan by a survey of the page's records and its entry: a frame's bytes serve only where all records are committed.
fn plan_by(s: Survey, e: u8) -> Plan
    ensures { Planned s.committed s.all e s.most result }
{
    let stamp = s.most;
    let Some(frame) = frames::frame_of(e) else {
        return Plan {
            from: None,
            frees: None,
            entry: bare(s.committed, s.all),
            stamp,
            reads: 1,
        };
    };
    if s.committed == s.all {
        return Plan {
            from: Some(frame),
            frees: None,
            entry: e / 2 * 2,
            stamp,
            reads: 0,
        };
    }
    Plan {
        from: None,
        frees: Some(frame),
        entry: 1,
        stamp,
        reads: 1,
    }
}

// The plan for page p by a survey of its records.
fn plan_for(tables: &[u8], frames: usize, p: PageNo, s: Survey) -> Plan
    requires { entry_at frames p.0 < length tables.now }
    ensures { Planned s.committed s.all (get_or tables.now (entry_at frames p.0) 0) s.most result }
{
    let at = layout::ORDER_AT + frames + p.0;
    plan_by(s, tables[at])
}

// The page in place among the stored pages: the bytes of the frame, if there is one, or the committed ones of the rows folded in.
fn write_page(
    stored: &mut [u8],
    size: usize,
    p: PageNo,
    online: &[OnlineRow],
    pool: &[u8],
    frame: Option<FrameNo>,
)
    requires { (p.0 * size + size ≤ length stored.old) × IfSome frame (λ f. f.0 * size + size ≤ length pool.now) }
    ensures { stored.new ≡ with_page size p.0 stored.old (page_from frame size pool.now (applied (keep (committed_on p.0) online.now) (page_in size p.0 stored.old))) }
{
    let a = p.0 * size;
    let e = a + size;
    if let Some(f) = frame {
        let b = f.0 * size;
        let d = b + size;
        fill::copy(&mut stored[a..e], &pool[b..d]);
        return;
    }
    apply::fold(online, p, true, &mut stored[a..e]);
}

// The entry of page p, and the use order.
fn write_entry(tables: &mut [u8], frames: usize, p: PageNo, entry: u8, frees: Option<FrameNo>)
    requires { (entry_at frames p.0 < length tables.old) × (used_in tables.old ≤ frames) × (frames ≤ 64) }
    ensures { tables.new ≡ with_order frames (order_without frees (part order_at (used_in tables.old) tables.old)) (set tables.old (entry_at frames p.0) entry) }
{
    let order = frames::freed_order(frees, frames::load_order(tables, frames));
    let at = layout::ORDER_AT + frames + p.0;
    tables[at] = entry;
    frames::save_order(tables, frames, &order);
}

// The page's committed records leave the online table; s is the survey of its m rows.
fn delete_folded(tables: &mut [u8], online: &mut [u8], m: usize, room: usize, p: PageNo, s: Survey)
    requires { (2 ≤ length tables.old) × (length online.old ≡ room * online_width) × (m ≤ room) × Surveyed p.0 (rows online_width m online.old 0) s }
    ensures { (tables.new ≡ with_count (length (keep (stays false 0 p.0) (rows online_width m online.old 0))) tables.old) × (online.new ≡ table online_width room (keep (stays false 0 p.0) (rows online_width m online.old 0))) }
{
    let k = table::delete(online, s.from, s.to, m, room, 0, Some(p));
    word::store(tables, layout::COUNT_AT, 2, k as u64);
}

// The lost part of compact.
fn compact_lost(
    tables: &mut [u8],
    online: &mut [u8],
    frames: usize,
    m: usize,
    room: usize,
    p: PageNo,
    s: Survey,
    plan: Plan,
)
    requires { (entry_at frames p.0 < length tables.old) × (used_in tables.old ≤ frames) × (frames ≤ 64) × (length online.old ≡ room * online_width) × (m ≤ room) × Surveyed p.0 (rows online_width m online.old 0) s }
    ensures { (tables.new ≡ with_count (length (keep (stays false 0 p.0) (rows online_width m online.old 0))) (with_order frames (order_without plan.frees (part order_at (used_in tables.old) tables.old)) (set tables.old (entry_at frames p.0) plan.entry))) × (online.new ≡ table online_width room (keep (stays false 0 p.0) (rows online_width m online.old 0))) }
{
    write_entry(tables, frames, p, plan.entry, plan.frees);
    delete_folded(tables, online, m, room, p, s);
}

// Compact by a survey of the page's records, on all the lent areas.
fn compact_by(
    fixed: &[u8],
    marks: &mut [u8],
    log: &[u8],
    stored: &mut [u8],
    tables: &mut [u8],
    online: &mut [u8],
    pool: &[u8],
    p: PageNo,
    s: Survey,
) -> Compacted
    requires { Shaped (areas fixed.now marks.old log.now stored.old tables.old online.old pool.now) × (p.0 < pages_of (areas fixed.now marks.old log.now stored.old tables.old online.old pool.now)) × Surveyed p.0 (online_of (areas fixed.now marks.old log.now stored.old tables.old online.old pool.now)) s }
    ensures reads { result.reads ≡ (compacted (areas fixed.now marks.old log.now stored.old tables.old online.old pool.now) p.0).reads }
    ensures writes { result.writes ≡ (compacted (areas fixed.now marks.old log.now stored.old tables.old online.old pool.now) p.0).writes }
    ensures lent { areas fixed.now marks.new log.now stored.new tables.new online.new pool.now ≡ (compacted (areas fixed.now marks.old log.now stored.old tables.old online.old pool.now) p.0).lent }
{
    let given = layout::params_of(fixed);
    let size = given.size as usize;
    let frames = given.frames as usize;
    let room = given.online as usize;
    let m = read::count_of(tables);
    let plan = plan_for(tables, frames, p, s);
    let rows = row::first_rows::<{ record::ONLINE_WIDTH }>(online, m);
    write_page(stored, size, p, &rows[s.from..s.to], pool, plan.from);
    compact_lost(tables, online, frames, m, room, p, s, plan);
    word::store(marks, layout::STAMPS_AT + 4 * p.0, 4, plan.stamp);
    Compacted {
        reads: plan.reads,
        writes: 1,
    }
}

// Compact as a step: none where it is not due, and nothing changes. One survey serves both to judge that and to compact.
pub fn compact_step(
    fixed: &[u8],
    marks: &mut [u8],
    log: &[u8],
    stored: &mut [u8],
    tables: &mut [u8],
    online: &mut [u8],
    pool: &[u8],
    p: PageNo,
    min_del: u64,
    max_age: u64,
) -> Option<Compacted>
    requires { Shaped (areas fixed.now marks.old log.now stored.old tables.old online.old pool.now) × (p.0 < pages_of (areas fixed.now marks.old log.now stored.old tables.old online.old pool.now)) }
    ensures due { is_some result ≡ due (areas fixed.now marks.old log.now stored.old tables.old online.old pool.now) p.0 min_del max_age }
    ensures reads { reads_of result ≡ (compact_step min_del max_age (areas fixed.now marks.old log.now stored.old tables.old online.old pool.now) p.0).reads }
    ensures writes { writes_of result ≡ (compact_step min_del max_age (areas fixed.now marks.old log.now stored.old tables.old online.old pool.now) p.0).writes }
    ensures lent { areas fixed.now marks.new log.now stored.new tables.new online.new pool.now ≡ (compact_step min_del max_age (areas fixed.now marks.old log.now stored.old tables.old online.old pool.now) p.0).lent }
{
    let m = read::count_of(tables);
    let s = table::survey(row::first_rows(online, m), p);
    let last = read::last_of(marks);
    let age = last.0.saturating_sub(s.least);
    if !due_by(s.committed as u64, age, min_del, max_age) {
        return None;
    }
    let c = compact_by(fixed, marks, log, stored, tables, online, pool, p, s);
    Some(c)
}
