// Abort: the owner's rows go; each page that had one loses its frame, and its entry is judged anew by the rows that stay.
ghost use Rattle.std.specs.Prelude.{◌≡◌, true, cond, ◌+◌, ◌*◌, ◌≤◌, ◌<◌, length, get_or, set, eqb};
ghost use Rattle.record.specs.Part.{part};
ghost use Rattle.record.specs.Rows.{rows, keep, table};
ghost use Rattle.record.specs.Record.{online_width, page_of, owned_by};
ghost use Rattle.table.specs.Stays.{stays};
ghost use Rattle.rules.specs.Lent.{order_at, used_in, live_at, entry_at, with_order, with_count};
ghost use Rattle.rules.specs.Areas.{areas};
ghost use Rattle.rules.specs.Shape.{Shaped};
ghost use Rattle.rules.specs.Steps.{freed_of, frames_freed, judged_anew, aborted};
ghost use Rattle.table.specs.Marks.{mark_pages};

use layout::read;
use number::PageNo;
use order::Order;
use record::row;
use record::row::OnlineRow;

// A byte of a list, 0 past its end.
fn byte_at(t: &[u8], i: usize) -> u8
    ensures { result ≡ get_or t.now i 0 }
{
    t.get(i).copied().unwrap_or(0)
}

// The order without the frame of the row's page, if the row is the owner's.
#[tactic(auto, using(frames::proofs::Laws::freed_named))]
fn free_row(tables: &[u8], row: &OnlineRow, frames: usize, owner: u8, order: Order) -> Order
    requires { frames ≤ 64 }
    ensures { result ≡ cond (owned_by owner row.now) (freed_of (get_or tables.now (entry_at frames (page_of row.now)) 0) order) order }
{
    if row::owner_of(row) != owner {
        return order;
    }
    let p = row::page_of(row);
    let e = byte_at(tables, layout::ORDER_AT + frames + p.0);
    frames::freed_order(frames::frame_of(e), order)
}

// The order without the frames of the pages of the owner's rows.
fn free_frames(tables: &[u8], online: &[OnlineRow], frames: usize, owner: u8, order: Order) -> Order
    requires { frames ≤ 64 }
    ensures { result ≡ frames_freed frames tables.now (keep (owned_by owner) online.now) order }
{
    let mut o = order;
    for row in online {
        o = free_row(tables, row, frames, owner, o);
    }
    o
}

// A mark at the page of each row that stays.
fn mark_stays(marks: &mut [u8], online: &[OnlineRow], owner: u8)
    ensures { marks.new ≡ mark_pages (keep (stays true owner 0) online.now) marks.old }
{
    table::mark::mark_pages(marks, online, |o| o != owner);
}

// The entry of a page without a frame: evicted if it is marked, else absent.
fn entry_anew(marks: &[u8], p: PageNo) -> u8
    ensures { result ≡ cond (eqb (get_or marks.now p.0 0) 1) 1 0 }
{
    u8::from(byte_at(marks, p.0) == 1)
}

// The entry of the row's page judged anew by the marks, if the row is the owner's.
fn judge_row(tables: &mut [u8], row: &OnlineRow, frames: usize, owner: u8, marks: &[u8])
    requires { frames ≤ 64 }
    ensures { tables.new ≡ cond (owned_by owner row.now) (set tables.old (entry_at frames (page_of row.now)) (cond (eqb (get_or marks.now (page_of row.now) 0) 1) 1 0)) tables.old }
{
    if row::owner_of(row) != owner {
        return;
    }
    let p = row::page_of(row);
    let at = layout::ORDER_AT + frames + p.0;
    table::mark::set_byte(tables, at, entry_anew(marks, p));
}

// The entries of the pages of the owner's rows judged anew: one walk marks the pages of the rows that stay, one sets the entries.
fn judge_anew(tables: &mut [u8], online: &[OnlineRow], frames: usize, owner: u8)
    requires { (frames ≤ 64) × (length tables.old ≤ order_at + frames + 1024) }
    ensures { tables.new ≡ judged_anew frames (keep (stays true owner 0) online.now) (keep (owned_by owner) online.now) tables.old }
{
    let mut marks = [0u8; 1024];
    mark_stays(&mut marks, online, owner);
    for row in online {
        judge_row(tables, row, frames, owner, &marks);
    }
}

// Each page of the owner's rows loses its frame, and its entry is judged anew.
fn take_pages(tables: &mut [u8], online: &[OnlineRow], frames: usize, owner: u8)
    requires { (order_at + frames ≤ length tables.old) × (length tables.old ≤ order_at + frames + 1024) × (used_in tables.old ≤ frames) × (frames ≤ 64) }
    ensures { tables.new ≡ with_order frames (frames_freed frames tables.old (keep (owned_by owner) online.now) (part order_at (used_in tables.old) tables.old)) (judged_anew frames (keep (stays true owner 0) online.now) (keep (owned_by owner) online.now) tables.old) }
{
    let order = frames::load_order(tables, frames);
    let left = free_frames(tables, online, frames, owner, order);
    judge_anew(tables, online, frames, owner);
    frames::save_order(tables, frames, &left);
}

// The tables and the online rows after the abort of an owner: m online rows, of which the table holds `size`.
#[tactic(auto, using(table::specs::Before::start))]
fn take_back(tables: &mut [u8], online: &mut [u8], frames: usize, m: usize, size: usize, owner: u8)
    requires { (order_at + frames ≤ length tables.old) × (length tables.old ≤ order_at + frames + 1024) × (used_in tables.old ≤ frames) × (frames ≤ 64) × (length online.old ≡ size * online_width) × (m ≤ size) × (size ≤ 512) × (owner ≤ 32) }
    ensures { (tables.new ≡ set (with_count (length (keep (stays true owner 0) (rows online_width m online.old 0))) (with_order frames (frames_freed frames tables.old (keep (owned_by owner) (rows online_width m online.old 0)) (part order_at (used_in tables.old) tables.old)) (judged_anew frames (keep (stays true owner 0) (rows online_width m online.old 0)) (keep (owned_by owner) (rows online_width m online.old 0)) tables.old))) (live_at owner) 0)
        × (online.new ≡ table online_width size (keep (stays true owner 0) (rows online_width m online.old 0))) }
{
    take_pages(
        tables,
        row::first_rows::<{ record::ONLINE_WIDTH }>(online, m),
        frames,
        owner,
    );
    let left = table::delete(online, 0, m, m, size, owner, None);
    word::store(tables, layout::COUNT_AT, 2, left as u64);
    let at = layout::LIVE_AT + usize::from(owner);
    tables[at] = 0;
}

pub fn abort(
    fixed: &[u8],
    marks: &[u8],
    log: &[u8],
    stored: &[u8],
    tables: &mut [u8],
    online: &mut [u8],
    pool: &[u8],
    owner: u8,
)
    requires { Shaped (areas fixed.now marks.now log.now stored.now tables.old online.old pool.now) × (owner ≤ 32) }
    ensures { areas fixed.now marks.now log.now stored.now tables.new online.new pool.now ≡ (aborted (areas fixed.now marks.now log.now stored.now tables.old online.old pool.now) owner).lent }
{
    let given = layout::params_of(fixed);
    let m = read::count_of(tables);
    take_back(
        tables,
        online,
        given.frames as usize,
        m,
        given.online as usize,
        owner,
    );
}
