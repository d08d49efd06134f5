// Compact one page.
ghost use Rattle.rules.specs.Areas.{areas};
ghost use Rattle.rules.specs.Calls.{compact_call};
ghost use Rattle.ventarico.specs.Said.{Told};

use number::PageNo;
use rules::{Areas, Reply};

pub fn ventarico_compact(
    fixed: &[u8],
    marks: &mut [u8],
    log: &[u8],
    stored: &mut [u8],
    tables: &mut [u8],
    online: &mut [u8],
    pool: &[u8],
    page: u32,
    min_del: u32,
    max_age: u32,
) -> Reply
    ensures { Told (compact_call (areas fixed.now marks.old log.now stored.old tables.old online.old pool.now) page min_del max_age) result
        (areas fixed.now marks.new log.now stored.new tables.new online.new pool.now) }
{
    let lent = Areas {
        fixed,
        marks: &*marks,
        log,
        stored: &*stored,
        tables: &*tables,
        online: &*online,
        pool,
    };
    match verdict::judge_compact(&lent, page, min_del, max_age) {
        Err(why) => crate::answer::refused(why),
        Ok(()) => {
            let step = compact::compact_step(
                fixed,
                marks,
                log,
                stored,
                tables,
                online,
                pool,
                PageNo(page as usize),
                u64::from(min_del),
                u64::from(max_age),
            );
            match step {
                None => crate::answer::not_due(),
                Some(c) => crate::answer::done(c.reads, c.writes, 0),
            }
        }
    }
}
