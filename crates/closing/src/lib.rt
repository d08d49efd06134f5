// Close: each page's dirty number is its smallest committed online number, K is L, and the log keeps what is from the smallest such number on.
#![tactic(auto)]

ghost use Rattle.std.specs.Prelude.{◌≡◌, [], ◌∷◌, cond, ◌+◌, ◌*◌, ◌-◌, ◌≤◌, min, length, drop, replicate, eqb};
ghost use Rattle.word.specs.Word.{num, put};
ghost use Rattle.record.specs.Part.{with_part};
ghost use Rattle.record.specs.Rows.{rows, table, keep};
ghost use Rattle.record.specs.Record.{log_width, committed, number_of, lesser, smallest};
ghost use Rattle.rules.specs.Lent.{fixed_length, marks_length, stamps_at, closed_at, logged_at, last_in, logged_in, pages_in, log_size_in, last_of, logged_of, dirty_at};
ghost use Rattle.rules.specs.Areas.{areas};
ghost use Rattle.rules.specs.Shape.{Shaped};
ghost use Rattle.rules.specs.Steps.{lowered, closed};

use layout::read;
use number::{LogNo, PageNo};
use record::row;
use record::row::OnlineRow;

// The dirty number of page p lowered to k; a page past the last has none.
#[tactic(auto, using(crate::proofs::Laws::put_out))]
fn lower(marks: &mut [u8], pages: usize, p: PageNo, k: LogNo)
    requires { length marks.old ≡ marks_length pages }
    ensures { marks.new ≡ put 4 marks.old (dirty_at pages p.0) (lesser (num 4 marks.old (dirty_at pages p.0)) k.0) }
{
    let q = p.0;
    if pages <= q {
        return;
    }
    let at = layout::STAMPS_AT + 4 * pages + 4 * q;
    let old = word::load(marks, at, 4);
    word::store(marks, at, 4, record::lesser_of(old, k.0));
}

// An online row lowers its page's dirty number if it is committed.
#[tactic(auto, unfolding(rules::specs::Steps::lowered))]
fn lower_row(marks: &mut [u8], pages: usize, row: &OnlineRow)
    requires { length marks.old ≡ marks_length pages }
    ensures { marks.new ≡ lowered pages (row.now ∷ []) marks.old }
{
    if row::owner_of(row) != 0 {
        return;
    }
    lower(marks, pages, row::page_of(row), row::number_of(row));
}

// Each online row in turn.
#[tactic(auto, using(crate::proofs::Laws::lowered_left, crate::proofs::Laws::lowered_none_left))]
fn lower_all(marks: &mut [u8], pages: usize, online: &[OnlineRow])
    requires { length marks.old ≡ marks_length pages }
    ensures { marks.new ≡ lowered pages online.now marks.old }
{
    for row in online {
        lower_row(marks, pages, row);
    }
}

// The smallest number so far, once an online row is seen.
fn smaller(row: &OnlineRow, a: u64) -> u64
    ensures { result ≡ cond (committed row.now) (lesser a (number_of row.now)) a }
{
    if row::owner_of(row) != 0 {
        return a;
    }
    let k = row::number_of(row);
    record::lesser_of(a, k.0)
}

// The smallest committed online number, 0 if there is none.
#[tactic(auto, using(crate::proofs::Laws::smallest_turn, crate::proofs::Laws::smallest_done))]
fn smallest_committed(online: &[OnlineRow]) -> u64
    ensures { result ≡ smallest 0 (keep committed online.now) }
{
    let mut a: u64 = 0;
    for row in online {
        a = smaller(row, a);
    }
    a
}

// No page has a dirty number.
fn clear_dirty(marks: &mut [u8], pages: usize)
    requires { length marks.old ≡ marks_length pages }
    ensures { marks.new ≡ with_part (dirty_at pages 0) (4 * pages) marks.old (replicate (4 * pages) 0) }
{
    let a = layout::STAMPS_AT + 4 * pages;
    let e = a + 4 * pages;
    fill::wipe(&mut marks[a..e]);
}

// The dirty numbers made anew from the online rows.
fn lower_anew(marks: &mut [u8], pages: usize, online: &[OnlineRow])
    requires { length marks.old ≡ marks_length pages }
    ensures { marks.new ≡ lowered pages online.now (with_part (dirty_at pages 0) (4 * pages) marks.old (replicate (4 * pages) 0)) }
{
    clear_dirty(marks, pages);
    lower_all(marks, pages, online);
}

// The dirty numbers made anew, K as L, and n less by d.
fn close_marks(fixed: &[u8], marks: &mut [u8], online: &[OnlineRow], d: usize)
    requires { (length fixed.now ≡ fixed_length) × (length marks.old ≡ marks_length (pages_in fixed.now)) × (d ≤ logged_in marks.old) }
    ensures { marks.new ≡ put 4 (put 4 (lowered (pages_in fixed.now) online.now (with_part (dirty_at (pages_in fixed.now) 0) (4 * pages_in fixed.now) marks.old (replicate (4 * pages_in fixed.now) 0))) closed_at (last_in marks.old)) logged_at (logged_in marks.old - d) }
{
    let pages = word::load(fixed, layout::PAGES_AT, 4) as usize;
    let last = read::last_of(marks);
    let n = read::logged_of(marks);
    lower_anew(marks, pages, online);
    word::store(marks, layout::CLOSED_AT, 4, last.0);
    word::store(marks, layout::LOGGED_AT, 4, (n - d) as u64);
}

// How many log records are dropped where the smallest dirty number is x: those below it, all if x is 0, and never more than there are.
fn dropped(marks: &[u8], x: u64) -> usize
    requires { (stamps_at ≤ length marks.now) × (logged_in marks.now ≤ last_in marks.now) }
    ensures { result ≡ min (logged_in marks.now) (cond (eqb x 0) (logged_in marks.now) (x - (last_in marks.now - logged_in marks.now + 1))) }
{
    let n = read::logged_of(marks);
    let first = read::first_of(marks);
    if x == 0 {
        n
    } else {
        n.min(x.saturating_sub(first.0) as usize)
    }
}

// The first d log records dropped.
fn close_log(fixed: &[u8], marks: &[u8], log: &mut [u8], d: usize)
    requires { (length fixed.now ≡ fixed_length) × (stamps_at ≤ length marks.now) × (length log.old ≡ log_width * log_size_in fixed.now) × (logged_in marks.now ≤ log_size_in fixed.now) × (d ≤ logged_in marks.now) }
    ensures { log.new ≡ table log_width (log_size_in fixed.now) (drop d (rows log_width (logged_in marks.now) log.old 0)) }
{
    let span = word::load(fixed, layout::LOG_SIZE_AT, 4) as usize;
    table::shift(log, read::logged_of(marks), span, d);
}

// Close, on all the lent areas.
pub fn close(
    fixed: &[u8],
    marks: &mut [u8],
    log: &mut [u8],
    stored: &[u8],
    tables: &[u8],
    online: &[u8],
    pool: &[u8],
)
    requires { Shaped (areas fixed.now marks.old log.old stored.now tables.now online.now pool.now) × (logged_of (areas fixed.now marks.old log.old stored.now tables.now online.now pool.now) ≤ last_of (areas fixed.now marks.old log.old stored.now tables.now online.now pool.now)) }
    ensures { areas fixed.now marks.new log.new stored.now tables.now online.now pool.now ≡ (closed (areas fixed.now marks.old log.old stored.now tables.now online.now pool.now)).lent }
{
    let rows = row::first_rows::<{ record::ONLINE_WIDTH }>(online, read::count_of(tables));
    let x = smallest_committed(rows);
    let d = dropped(marks, x);
    close_log(fixed, marks, log, d);
    close_marks(fixed, marks, rows, d);
}
