// A whole checkpoint: compact for each page, then close.
ghost use Rattle.rules.specs.Areas.{areas};
ghost use Rattle.rules.specs.Calls.{checkpoint_call};
ghost use Rattle.ventarico.specs.Said.{Told};

use rules::{Areas, Reply};

pub fn ventarico_checkpoint(
    fixed: &[u8],
    marks: &mut [u8],
    log: &mut [u8],
    stored: &mut [u8],
    tables: &mut [u8],
    online: &mut [u8],
    pool: &[u8],
    min_del: u32,
    max_age: u32,
) -> Reply
    ensures { Told (checkpoint_call (areas fixed.now marks.old log.old stored.old tables.old online.old pool.now) min_del max_age) result
        (areas fixed.now marks.new log.new stored.new tables.new online.new pool.now) }
{
    let lent = Areas {
        fixed,
        marks: &*marks,
        log: &*log,
        stored: &*stored,
        tables: &*tables,
        online: &*online,
        pool,
    };
    match verdict::judge_checkpoint(&lent, min_del, max_age) {
        Err(why) => crate::answer::refused(why),
        Ok(()) => {
            let c = checkpoint::checkpoint(
                fixed,
                marks,
                log,
                stored,
                tables,
                online,
                pool,
                u64::from(min_del),
                u64::from(max_age),
            );
            crate::answer::done(c.reads, c.writes, 1)
        }
    }
}
