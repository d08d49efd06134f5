// Restart after a power loss.
ghost use Rattle.rules.specs.Areas.{areas};
ghost use Rattle.rules.specs.Calls.{restart_call};
ghost use Rattle.ventarico.specs.Said.{Told};

use rules::{Areas, Reply};

pub fn ventarico_restart(
    fixed: &[u8],
    marks: &[u8],
    log: &[u8],
    stored: &[u8],
    tables: &mut [u8],
    online: &mut [u8],
    pool: &[u8],
) -> Reply
    ensures { Told (restart_call (areas fixed.now marks.now log.now stored.now tables.old online.old pool.now)) result
        (areas fixed.now marks.now log.now stored.now tables.new online.new pool.now) }
{
    let lent = Areas {
        fixed,
        marks,
        log,
        stored,
        tables: &*tables,
        online: &*online,
        pool,
    };
    match verdict::judge_restart(&lent) {
        Err(why) => crate::answer::refused(why),
        Ok(()) => {
            restart::restart(fixed, marks, log, stored, tables, online, pool);
            crate::answer::done(0, 0, 0)
        }
    }
}
