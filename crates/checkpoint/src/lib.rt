// Checkpoint: compact for each page, ascending, then close.
// One walk marks the pages that have a committed online record; the others are passed over, since compact is not due for them.
#![tactic(auto)]

ghost use Rattle.std.specs.Prelude.{◌≡◌, ◌≤◌, ◌<◌};
ghost use Rattle.record.specs.Rows.{keep};
ghost use Rattle.record.specs.Record.{committed};
ghost use Rattle.rules.specs.Lent.{pages_of, last_of, logged_of};
ghost use Rattle.rules.specs.Areas.{areas};
ghost use Rattle.rules.specs.Shape.{Shaped};
ghost use Rattle.rules.specs.Steps.{compact_step, checkpointed};
ghost use Rattle.table.specs.Marks.{mark_pages};
ghost use Rattle.compact.specs.Counted.{reads_of, writes_of};
ghost use Rattle.checkpoint.specs.Noted.{Noted};
ghost use Rattle.checkpoint.specs.Halfway.{Halfway};

use compact::Compacted;
use layout::read;
use number::PageNo;
use record::row;
use record::row::OnlineRow;

// A mark at the page of each committed row.
fn mark_committed(seen: &mut [u8], online: &[OnlineRow])
    ensures { seen.new ≡ mark_pages (keep committed online.now) seen.old }
{
    table::mark::mark_pages(seen, online, |o| o == 0);
}

// Compact as a step, where the page is marked; the step of another page does nothing.
fn marked_step(
    fixed: &[u8],
    marks: &mut [u8],
    log: &[u8],
    stored: &mut [u8],
    tables: &mut [u8],
    online: &mut [u8],
    pool: &[u8],
    p: PageNo,
    min_del: u64,
    max_age: u64,
    seen: &[u8],
) -> Option<Compacted>
    requires { Shaped (areas fixed.now marks.old log.now stored.old tables.old online.old pool.now) × (p.0 < pages_of (areas fixed.now marks.old log.now stored.old tables.old online.old pool.now)) × Noted seen.now (areas fixed.now marks.old log.now stored.old tables.old online.old pool.now) }
    ensures reads { reads_of result ≡ (compact_step min_del max_age (areas fixed.now marks.old log.now stored.old tables.old online.old pool.now) p.0).reads }
    ensures writes { writes_of result ≡ (compact_step min_del max_age (areas fixed.now marks.old log.now stored.old tables.old online.old pool.now) p.0).writes }
    ensures lent { areas fixed.now marks.new log.now stored.new tables.new online.new pool.now ≡ (compact_step min_del max_age (areas fixed.now marks.old log.now stored.old tables.old online.old pool.now) p.0).lent }
{
    let at = p.0;
    if seen[at] != 1 {
        return None;
    }
    compact::compact_step(
        fixed, marks, log, stored, tables, online, pool, p, min_del, max_age,
    )
}

// Compact as a step for each page, ascending.
fn compact_all(
    fixed: &[u8],
    marks: &mut [u8],
    log: &[u8],
    stored: &mut [u8],
    tables: &mut [u8],
    online: &mut [u8],
    pool: &[u8],
    min_del: u64,
    max_age: u64,
    seen: &[u8],
) -> Compacted
    requires { Shaped (areas fixed.now marks.old log.now stored.old tables.old online.old pool.now) × (logged_of (areas fixed.now marks.old log.now stored.old tables.old online.old pool.now) ≤ last_of (areas fixed.now marks.old log.now stored.old tables.old online.old pool.now)) × Noted seen.now (areas fixed.now marks.old log.now stored.old tables.old online.old pool.now) }
    ensures { Halfway min_del max_age (areas fixed.now marks.old log.now stored.old tables.old online.old pool.now) (areas fixed.now marks.new log.now stored.new tables.new online.new pool.now) result.reads result.writes (pages_of (areas fixed.now marks.old log.now stored.old tables.old online.old pool.now)) }
{
    let pages = word::load(fixed, layout::PAGES_AT, 4) as usize;
    let mut reads: u32 = 0;
    let mut writes: u32 = 0;
    // the tables are those after the first j compactions
    for j in 0..pages {
        let step = marked_step(
            fixed,
            marks,
            log,
            stored,
            tables,
            online,
            pool,
            PageNo(j),
            min_del,
            max_age,
            seen,
        );
        if let Some(c) = step {
            reads += c.reads;
            writes += c.writes;
        }
    }
    Compacted { reads, writes }
}

// Checkpoint, on all the lent areas.
pub fn checkpoint(
    fixed: &[u8],
    marks: &mut [u8],
    log: &mut [u8],
    stored: &mut [u8],
    tables: &mut [u8],
    online: &mut [u8],
    pool: &[u8],
    min_del: u64,
    max_age: u64,
) -> Compacted
    requires { Shaped (areas fixed.now marks.old log.old stored.old tables.old online.old pool.now) × (logged_of (areas fixed.now marks.old log.old stored.old tables.old online.old pool.now) ≤ last_of (areas fixed.now marks.old log.old stored.old tables.old online.old pool.now)) }
    ensures reads { result.reads ≡ (checkpointed min_del max_age (areas fixed.now marks.old log.old stored.old tables.old online.old pool.now)).reads }
    ensures writes { result.writes ≡ (checkpointed min_del max_age (areas fixed.now marks.old log.old stored.old tables.old online.old pool.now)).writes }
    ensures lent { areas fixed.now marks.new log.new stored.new tables.new online.new pool.now ≡ (checkpointed min_del max_age (areas fixed.now marks.old log.old stored.old tables.old online.old pool.now)).lent }
{
    let m = read::count_of(tables);
    let mut seen = [0u8; 1024];
    mark_committed(&mut seen, row::first_rows(online, m));
    let d = compact_all(
        fixed, marks, log, stored, tables, online, pool, min_del, max_age, &seen,
    );
    closing::close(fixed, marks, log, stored, tables, online, pool);
    d
}
