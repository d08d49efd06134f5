// Abort a transaction.
ghost use Rattle.rules.specs.Areas.{areas};
ghost use Rattle.rules.specs.Calls.{abort_call};
ghost use Rattle.ventarico.specs.Said.{Told};

use rules::{Areas, Reply};

pub fn ventarico_abort(
    fixed: &[u8],
    marks: &[u8],
    log: &[u8],
    stored: &[u8],
    tables: &mut [u8],
    online: &mut [u8],
    pool: &[u8],
    number: u32,
) -> Reply
    ensures { Told (abort_call (areas fixed.now marks.now log.now stored.now tables.old online.old pool.now) number) result
        (areas fixed.now marks.now log.now stored.now tables.new online.new pool.now) }
{
    let lent = Areas {
        fixed,
        marks,
        log,
        stored,
        tables: &*tables,
        online: &*online,
        pool,
    };
    match verdict::judge_abort(&lent, number) {
        Err(why) => crate::answer::refused(why),
        Ok(()) => {
            let owner = number as u8;
            steps::abort::abort(fixed, marks, log, stored, tables, online, pool, owner);
            crate::answer::done(0, 0, 0)
        }
    }
}
