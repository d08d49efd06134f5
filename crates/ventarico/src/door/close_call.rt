// Close a checkpoint.
ghost use Rattle.rules.specs.Areas.{areas};
ghost use Rattle.rules.specs.Calls.{close_call};
ghost use Rattle.ventarico.specs.Said.{Told};

use rules::{Areas, Reply};

pub fn ventarico_close(
    fixed: &[u8],
    marks: &mut [u8],
    log: &mut [u8],
    stored: &[u8],
    tables: &[u8],
    online: &[u8],
    pool: &[u8],
) -> Reply
    ensures { Told (close_call (areas fixed.now marks.old log.old stored.now tables.now online.now pool.now)) result
        (areas fixed.now marks.new log.new stored.now tables.now online.now pool.now) }
{
    let lent = Areas {
        fixed,
        marks: &*marks,
        log: &*log,
        stored,
        tables,
        online,
        pool,
    };
    match verdict::judge_close(&lent) {
        Err(why) => crate::answer::refused(why),
        Ok(()) => {
            closing::close(fixed, marks, log, stored, tables, online, pool);
            crate::answer::done(0, 0, 1)
        }
    }
}
