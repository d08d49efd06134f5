// Restart: the lost part made anew from the log. Of the durable part nothing changes, and no frame byte.
#![tactic(auto)]

ghost use Rattle.std.specs.Prelude.{◌≡◌, true, cond, ◌++◌, ◌+◌, ◌*◌, ◌-◌, ◌^◌, ◌≤◌, ◌<◌, length, drop, set};
ghost use Rattle.word.specs.Word.{put};
ghost use Rattle.record.specs.Part.{with_part};
ghost use Rattle.record.specs.Rows.{joined};
ghost use Rattle.record.specs.Record.{online_width, log_width, page_of, entered};
ghost use Rattle.rules.specs.Lent.{order_at, marks_length, pages_in, frames_in, entry_at};
ghost use Rattle.rules.specs.Sound.{every};
ghost use Rattle.rules.specs.Shape.{page_below};
ghost use Rattle.rules.specs.Areas.{areas, areas_of};
ghost use Rattle.rules.specs.Steps.{entering_all, evicted_all, restarted};
ghost use Rattle.restart.specs.Enter.{enters_by, entering_by, all_by, Readable, Restartable, Restarts};

use layout::read;
use number::LogNo;
use record::row;
use record::row::LogRow;
use rules::Areas;

// The log's records as a restart reads them: numbered from `first` on, and the marks of the pages that they name.
#[derive(Clone, Copy)]
struct Records<'a> {
    marks: &'a [u8],
    rows: &'a [LogRow],
    first: LogNo,
    pages: usize,
    ghost marks_exact: { length marks.now ≡ marks_length pages },
    ghost pages_most: { pages ≤ 1024 },
    ghost numbered: { first.0 + length rows.now < 2 ^ 63 },
    ghost paged: { every (page_below pages) rows.now ≡ true },
}

impl<'a> Records<'a> {
    // The number of record i.
    fn number(&self, i: usize) -> LogNo
        requires { i < length self.now.rows.now }
        ensures { result.0 ≡ self.now.first.0 + i }
    {
        LogNo(self.first.0 + i as u64)
    }

    // A record enters: its number is above its page's stamp and, at or below the checkpoint number, its page has a dirty number.
    // Numbers ascend through the log, so that the branch on the checkpoint number is foretold well; one on a stamp would not be.
    #[tactic(auto, using(crate::proofs::Laws::enters_new, crate::proofs::Laws::enters_old))]
    fn enters(&self, k: LogNo, row: &LogRow) -> bool
        requires { page_of row.now < self.now.pages }
        ensures { result ≡ enters_by self.now.marks.now self.now.pages k.0 row.now }
    {
        let p = row::page_of(row);
        let page = p.0;
        let stamp = word::load(self.marks, layout::STAMPS_AT + 4 * page, 4);
        let closed = word::load(self.marks, layout::CLOSED_AT, 4);
        if closed < k.0 {
            return stamp < k.0;
        }
        let dirty = word::load(self.marks, layout::STAMPS_AT + 4 * self.pages + 4 * page, 4);
        (dirty != 0) & (stamp < k.0)
    }

    // How many enter.
    #[tactic(auto, using(crate::proofs::Laws::row_paged, crate::proofs::Laws::count_yes, crate::proofs::Laws::count_no, crate::proofs::Laws::count_end))]
    fn count_entering(&self) -> usize
        ensures { result ≡ length (entering_by self.now.marks.now self.now.pages self.now.first.0 self.now.rows.now) }
    {
        let mut m = 0;
        for (i, row) in self.rows.iter().enumerate() {
            if self.enters(self.number(i), row) {
                m += 1;
            }
        }
        m
    }

    // A record numbered k: it enters as online row m and its page becomes evicted, or it is passed over. The number of online rows then.
    fn enter_one(
        &self,
        k: LogNo,
        row: &LogRow,
        frames: usize,
        tables: &mut [u8],
        online: &mut [u8],
        m: usize,
    ) -> usize
        requires { (page_of row.now < self.now.pages) × (frames ≤ 64) × (order_at + frames + self.now.pages ≤ length tables.old) × (enters_by self.now.marks.now self.now.pages k.0 row.now ≡ true → m * online_width + online_width ≤ length online.old) }
        ensures width { length row.now ≡ log_width }
        ensures entered { (result ≡ cond (enters_by self.now.marks.now self.now.pages k.0 row.now) (m + 1) m) × (tables.new ≡ cond (enters_by self.now.marks.now self.now.pages k.0 row.now) (set tables.old (entry_at frames (page_of row.now)) 1) tables.old) × (online.new ≡ cond (enters_by self.now.marks.now self.now.pages k.0 row.now) (with_part (m * online_width) online_width online.old (entered row.now k.0)) online.old) }
    {
        if !self.enters(k, row) {
            return m;
        }
        let p = row::page_of(row);
        tables[layout::ORDER_AT + frames + p.0] = 1;
        table::enter(online, m, row, k);
        m + 1
    }

    // Those that enter, in order, over the first online rows; how many they are.
    fn enter(&self, frames: usize, tables: &mut [u8], online: &mut [u8]) -> usize
        requires { (frames ≤ 64) × (order_at + frames + self.now.pages ≤ length tables.old) × (length (entering_by self.now.marks.now self.now.pages self.now.first.0 self.now.rows.now) * online_width ≤ length online.old) }
        ensures { (result ≡ length (entering_by self.now.marks.now self.now.pages self.now.first.0 self.now.rows.now)) × (tables.new ≡ evicted_all frames (entering_by self.now.marks.now self.now.pages self.now.first.0 self.now.rows.now) tables.old) × (online.new ≡ joined (entering_by self.now.marks.now self.now.pages self.now.first.0 self.now.rows.now) ++ drop (length (entering_by self.now.marks.now self.now.pages self.now.first.0 self.now.rows.now) * online_width) online.old) }
    {
        let mut m = 0;
        for (i, row) in self.rows.iter().enumerate() {
            m = self.enter_one(self.number(i), row, frames, tables, online, m);
        }
        m
    }
}

// The records of the whole log.
#[tactic(auto, using(crate::proofs::Laws::all_read))]
fn read_records<'a>(fixed: &[u8], marks: &'a [u8], log: &'a [u8]) -> Records<'a>
    requires { Readable fixed.now marks.now log.now }
    ensures entering { entering_by result.marks.now result.pages result.first.0 result.rows.now ≡ all_by fixed.now marks.now log.now }
    ensures pages { result.pages ≡ pages_in fixed.now }
{
    let pages = word::load(fixed, layout::PAGES_AT, 4) as usize;
    let rows = row::first_rows::<{ record::LOG_WIDTH }>(log, read::logged_of(marks));
    let first = read::first_of(marks);
    Records {
        marks,
        rows,
        first,
        pages,
    }
}

// How many log records a restart enters into the online table.
pub fn count_entering(lent: &Areas<'_>) -> usize
    requires { Restartable (areas_of lent.now) }
    ensures { result ≡ length (entering_all (areas_of lent.now)) }
{
    read_records(lent.fixed, lent.marks, lent.log).count_entering()
}

// All of the log that enters, and the count of online rows.
fn enter_all(fixed: &[u8], marks: &[u8], log: &[u8], tables: &mut [u8], online: &mut [u8])
    requires { Readable fixed.now marks.now log.now × (order_at + frames_in fixed.now + pages_in fixed.now ≤ length tables.old) × (length (all_by fixed.now marks.now log.now) * online_width ≤ length online.old) }
    ensures { (tables.new ≡ put 2 (evicted_all (frames_in fixed.now) (all_by fixed.now marks.now log.now) tables.old) 0 (length (all_by fixed.now marks.now log.now))) × (online.new ≡ joined (all_by fixed.now marks.now log.now) ++ drop (length (all_by fixed.now marks.now log.now) * online_width) online.old) }
{
    let frames = word::load(fixed, layout::FRAMES_AT, 4) as usize;
    let m = read_records(fixed, marks, log).enter(frames, tables, online);
    word::store(tables, layout::COUNT_AT, 2, m as u64);
}

// The lost part made anew: empty but for the log records that enter.
pub fn restart(
    fixed: &[u8],
    marks: &[u8],
    log: &[u8],
    stored: &[u8],
    tables: &mut [u8],
    online: &mut [u8],
    pool: &[u8],
)
    requires { Restarts (areas fixed.now marks.now log.now stored.now tables.old online.old pool.now) }
    ensures { areas fixed.now marks.now log.now stored.now tables.new online.new pool.now ≡ (restarted (areas fixed.now marks.now log.now stored.now tables.old online.old pool.now)).lent }
{
    fill::wipe(tables);
    fill::wipe(online);
    enter_all(fixed, marks, log, tables, online);
}
