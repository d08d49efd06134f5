// Fetch, read and update: a page comes into a frame, is read there, is changed there.
// Fetch, read and update are lent all seven areas, so that their contracts speak of the whole of them.
#![tactic(auto)]

ghost use Rattle.std.specs.Prelude.{◌≡◌, true, cond, ◌++◌, ◌+◌, ◌*◌, ◌≤◌, ◌<◌, length, get_or, drop, set};
ghost use Rattle.record.specs.Part.{part};
ghost use Rattle.record.specs.Rows.{keep};
ghost use Rattle.record.specs.Record.{online_width, on_page, apply, applied, row_of};
ghost use Rattle.order.specs.Order.{touched};
ghost use Rattle.rules.specs.Lent.{order_at, size_of, pages_of, frames_of, online_size_of, count_of, order_of, entry_at, dirty_in, page_in, with_page, with_order, with_entries, with_count};
ghost use Rattle.rules.specs.Areas.{areas};
ghost use Rattle.rules.specs.Sound.{zeros};
ghost use Rattle.rules.specs.Shape.{Shaped};
ghost use Rattle.rules.specs.Steps.{placed, read_tables, update_tables};
ghost use Rattle.fetch.specs.Post.{PageBrought, PageFetched, PageUsed, ReadDone, UpdateDone};

use layout::read;
use number::{FrameNo, PageNo};
use order::Order;
use record::row;
use record::row::OnlineRow;

// Where a page is, and with how many page reads it came there.
#[derive(Clone, Copy)]
pub struct Fetched {
    pub frame: FrameNo,
    pub reads: u32,
}

// The page's entry.
fn entry_of(tables: &[u8], frames: usize, p: PageNo) -> u8
    requires { entry_at frames p.0 < length tables.now }
    ensures { result ≡ get_or tables.now (entry_at frames p.0) 0 }
{
    tables[layout::ORDER_AT + frames + p.0]
}

// Page p goes into frame f: the entries.
fn take_frame(tables: &mut [u8], frames: usize, pages: usize, f: FrameNo, p: PageNo)
    requires { (order_at + frames + pages ≤ length tables.old) × (f.0 < 64) × (p.0 < pages) }
    ensures { tables.new ≡ with_entries frames pages (placed f.0 p.0 (part (order_at + frames) pages tables.old)) tables.old }
{
    let a = layout::ORDER_AT + frames;
    let e = a + pages;
    frames::place(&mut tables[a..e], f, p);
}

// Page p goes into frame f: the frame's bytes, lent on by themselves.
fn fill_frame(
    pool: &mut [u8],
    size: usize,
    f: FrameNo,
    stored: &[u8],
    p: PageNo,
    online: &[OnlineRow],
    evicted: bool,
)
    requires { (f.0 * size + size ≤ length pool.old) × (p.0 * size + size ≤ length stored.now) }
    ensures { pool.new ≡ with_page size f.0 pool.old (cond evicted (applied (keep (on_page p.0) online.now) (page_in size p.0 stored.now)) (page_in size p.0 stored.now)) }
{
    let a = f.0 * size;
    let e = a + size;
    frames::rebuild(&mut pool[a..e], stored, size, p, online, evicted);
}

// Page p goes into frame f.
fn bring_in(
    fixed: &[u8],
    marks: &[u8],
    log: &[u8],
    stored: &[u8],
    tables: &mut [u8],
    online: &[u8],
    pool: &mut [u8],
    f: FrameNo,
    p: PageNo,
)
    requires { Shaped (areas fixed.now marks.now log.now stored.now tables.old online.now pool.old) × (p.0 < pages_of (areas fixed.now marks.now log.now stored.now tables.old online.now pool.old)) × (f.0 < frames_of (areas fixed.now marks.now log.now stored.now tables.old online.now pool.old)) }
    ensures { PageBrought (areas fixed.now marks.now log.now stored.now tables.old online.now pool.old) p.0 f.0 tables.new pool.new }
{
    let given = layout::params_of(fixed);
    let size = given.size as usize;
    let pages = given.pages as usize;
    let frames = given.frames as usize;
    let rows = row::first_rows::<{ record::ONLINE_WIDTH }>(online, read::count_of(tables));
    let evicted = entry_of(tables, frames, p) % 2 == 1;
    fill_frame(pool, size, f, stored, p, rows, evicted);
    take_frame(tables, frames, pages, f, p);
}

// Page p in a frame. The use order is lent and not changed here.
pub fn fetch(
    fixed: &[u8],
    marks: &[u8],
    log: &[u8],
    stored: &[u8],
    tables: &mut [u8],
    online: &[u8],
    pool: &mut [u8],
    order: &Order,
    p: PageNo,
) -> Fetched
    requires { Shaped (areas fixed.now marks.now log.now stored.now tables.old online.now pool.old) × (p.0 < pages_of (areas fixed.now marks.now log.now stored.now tables.old online.now pool.old)) × (order.now ≡ order_of (areas fixed.now marks.now log.now stored.now tables.old online.now pool.old)) }
    ensures { PageFetched (areas fixed.now marks.now log.now stored.now tables.old online.now pool.old) p.0 result.frame.0 result.reads tables.new pool.new }
{
    let given = layout::params_of(fixed);
    let frames = given.frames as usize;
    if let Some(frame) = frames::frame_of(entry_of(tables, frames, p)) {
        return Fetched { frame, reads: 0 };
    }
    let f = order.frame_for(frames);
    bring_in(fixed, marks, log, stored, tables, online, pool, f, p);
    Fetched { frame: f, reads: 1 }
}

// Frame f becomes the latest used.
fn make_latest(tables: &mut [u8], frames: usize, order: Order, f: FrameNo)
    requires { (order_at + frames ≤ length tables.old) × (frames ≤ 64) × (length order ≤ 64) × (f.0 < 256) }
    ensures { tables.new ≡ with_order frames (touched f.0 order) tables.old }
{
    let next = order.touch(f);
    frames::save_order(tables, frames, &next);
}

// Page p in a frame, which becomes the latest used.
fn use_page(
    fixed: &[u8],
    marks: &[u8],
    log: &[u8],
    stored: &[u8],
    tables: &mut [u8],
    online: &[u8],
    pool: &mut [u8],
    p: PageNo,
) -> Fetched
    requires { Shaped (areas fixed.now marks.now log.now stored.now tables.old online.now pool.old) × (p.0 < pages_of (areas fixed.now marks.now log.now stored.now tables.old online.now pool.old)) }
    ensures { PageUsed (areas fixed.now marks.now log.now stored.now tables.old online.now pool.old) p.0 result.frame.0 result.reads tables.new pool.new (read_tables (areas fixed.now marks.now log.now stored.now tables.old online.now pool.old) p.0) }
{
    let given = layout::params_of(fixed);
    let frames = given.frames as usize;
    let order = frames::load_order(tables, frames);
    let got = fetch(fixed, marks, log, stored, tables, online, pool, &order, p);
    let f = got.frame;
    make_latest(tables, frames, order, f);
    got
}

// Bytes of a page in its frame, to the front of the buffer.
fn copy_out(pool: &[u8], size: usize, f: FrameNo, offset: usize, w: usize, buffer: &mut [u8])
    requires { (f.0 * size + size ≤ length pool.now) × (offset + w ≤ size) × (w ≤ length buffer.old) }
    ensures { buffer.new ≡ part offset w (page_in size f.0 pool.now) ++ drop w buffer.old }
{
    let a = f.0 * size + offset;
    let e = a + w;
    fill::copy(&mut buffer[..w], &pool[a..e]);
}

// The w bytes at an offset of page p, to the front of the buffer.
pub fn read(
    fixed: &[u8],
    marks: &[u8],
    log: &[u8],
    stored: &[u8],
    tables: &mut [u8],
    online: &[u8],
    pool: &mut [u8],
    buffer: &mut [u8],
    p: PageNo,
    offset: usize,
    w: usize,
) -> u32
    requires { Shaped (areas fixed.now marks.now log.now stored.now tables.old online.now pool.old) × (p.0 < pages_of (areas fixed.now marks.now log.now stored.now tables.old online.now pool.old)) × (offset + w ≤ size_of (areas fixed.now marks.now log.now stored.now tables.old online.now pool.old)) × (w ≤ length buffer.old) }
    ensures { ReadDone (areas fixed.now marks.now log.now stored.now tables.old online.now pool.old) p.0 offset w result tables.new pool.new buffer.old buffer.new }
{
    let given = layout::params_of(fixed);
    let size = given.size as usize;
    let got = use_page(fixed, marks, log, stored, tables, online, pool, p);
    let f = got.frame;
    copy_out(pool, size, f, offset, w, buffer);
    got.reads
}

// Page p is dirty in frame f.
fn mark_dirty(tables: &mut [u8], frames: usize, f: FrameNo, p: PageNo)
    requires { (entry_at frames p.0 < length tables.old) × (f.0 < 64) }
    ensures { tables.new ≡ set tables.old (entry_at frames p.0) (dirty_in f.0) }
{
    let at = layout::ORDER_AT + frames + p.0;
    tables[at] = (2 * (f.0 + 1) + 1) as u8;
}

// Page p in frame f has one online record more, and the frame becomes the latest used.
fn note_change(tables: &mut [u8], frames: usize, order: Order, f: FrameNo, p: PageNo, m: usize)
    requires { (entry_at frames p.0 < length tables.old) × (frames ≤ 64) × (length order ≤ 64) × (f.0 < 64) × (m < 65536) }
    ensures { tables.new ≡ with_count (m + 1) (with_order frames (touched f.0 order) (set tables.old (entry_at frames p.0) (dirty_in f.0))) }
{
    mark_dirty(tables, frames, f, p);
    make_latest(tables, frames, order, f);
    word::store(tables, layout::COUNT_AT, 2, (m + 1) as u64);
}

// Page p in a frame, which becomes the latest used, and dirty there, with one online record more.
fn change_page(
    fixed: &[u8],
    marks: &[u8],
    log: &[u8],
    stored: &[u8],
    tables: &mut [u8],
    online: &[u8],
    pool: &mut [u8],
    p: PageNo,
) -> Fetched
    requires { Shaped (areas fixed.now marks.now log.now stored.now tables.old online.now pool.old) × (p.0 < pages_of (areas fixed.now marks.now log.now stored.now tables.old online.now pool.old)) }
    ensures { PageUsed (areas fixed.now marks.now log.now stored.now tables.old online.now pool.old) p.0 result.frame.0 result.reads tables.new pool.new (update_tables (areas fixed.now marks.now log.now stored.now tables.old online.now pool.old) p.0) }
{
    let given = layout::params_of(fixed);
    let frames = given.frames as usize;
    let m = read::count_of(tables);
    let order = frames::load_order(tables, frames);
    let got = fetch(fixed, marks, log, stored, tables, online, pool, &order, p);
    let f = got.frame;
    note_change(tables, frames, order, f, p, m);
    got
}

// A row, applied to the page in frame f: the frame's bytes, lent on by themselves.
fn apply_in(pool: &mut [u8], size: usize, f: FrameNo, row: &OnlineRow)
    requires { f.0 * size + size ≤ length pool.old }
    ensures { pool.new ≡ with_page size f.0 pool.old (apply row.now (page_in size f.0 pool.old)) }
{
    let a = f.0 * size;
    let e = a + size;
    apply::apply_row(row, &mut pool[a..e]);
}

// An owner's change of w bytes at an offset of page p: recorded, and made in the page's frame.
pub fn update(
    fixed: &[u8],
    marks: &[u8],
    log: &[u8],
    stored: &[u8],
    tables: &mut [u8],
    online: &mut [u8],
    pool: &mut [u8],
    p: PageNo,
    offset: usize,
    w: usize,
    kind: u8,
    v: u64,
    owner: u8,
) -> u32
    requires { Shaped (areas fixed.now marks.now log.now stored.now tables.old online.old pool.old) × (p.0 < pages_of (areas fixed.now marks.now log.now stored.now tables.old online.old pool.old)) × (offset + w ≤ size_of (areas fixed.now marks.now log.now stored.now tables.old online.old pool.old)) × (w ≤ 8) × (count_of (areas fixed.now marks.now log.now stored.now tables.old online.old pool.old) < online_size_of (areas fixed.now marks.now log.now stored.now tables.old online.old pool.old)) × (zeros (drop (count_of (areas fixed.now marks.now log.now stored.now tables.old online.old pool.old) * online_width) online.old) ≡ true) }
    ensures { UpdateDone (areas fixed.now marks.now log.now stored.now tables.old online.old pool.old) (row_of p.0 offset w kind v owner) result tables.new online.new pool.new }
{
    let given = layout::params_of(fixed);
    let size = given.size as usize;
    let m = read::count_of(tables);
    let got = change_page(fixed, marks, log, stored, tables, online, pool, p);
    let f = got.frame;
    table::append(online, m, p, offset, w, kind, v, owner);
    apply_in(
        pool,
        size,
        f,
        row::row_at::<{ record::ONLINE_WIDTH }>(online, m),
    );
    got.reads
}
