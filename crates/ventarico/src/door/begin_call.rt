// Begin a transaction.
ghost use Rattle.rules.specs.Areas.{areas};
ghost use Rattle.rules.specs.Calls.{begin_call};
ghost use Rattle.ventarico.specs.Said.{Told};

use rules::{Areas, Reply};

pub fn ventarico_begin(
    fixed: &[u8],
    marks: &[u8],
    log: &[u8],
    stored: &[u8],
    tables: &mut [u8],
    online: &[u8],
    pool: &[u8],
    number: u32,
) -> Reply
    ensures { Told (begin_call (areas fixed.now marks.now log.now stored.now tables.old online.now pool.now) number) result
        (areas fixed.now marks.now log.now stored.now tables.new online.now pool.now) }
{
    let lent = Areas {
        fixed,
        marks,
        log,
        stored,
        tables: &*tables,
        online,
        pool,
    };
    match verdict::judge_begin(&lent, number) {
        Err(why) => crate::answer::refused(why),
        Ok(()) => {
            steps::begin::begin(fixed, marks, log, stored, tables, online, pool, number);
            crate::answer::done(0, 0, 0)
        }
    }
}
