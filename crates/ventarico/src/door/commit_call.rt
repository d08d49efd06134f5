// Commit a transaction.
ghost use Rattle.rules.specs.Areas.{areas};
ghost use Rattle.rules.specs.Calls.{commit_call};
ghost use Rattle.ventarico.specs.Said.{Told};

use rules::{Areas, Reply};

pub fn ventarico_commit(
    fixed: &[u8],
    marks: &mut [u8],
    log: &mut [u8],
    stored: &[u8],
    tables: &mut [u8],
    online: &mut [u8],
    pool: &[u8],
    number: u32,
) -> Reply
    ensures { Told (commit_call (areas fixed.now marks.old log.old stored.now tables.old online.old pool.now) number) result
        (areas fixed.now marks.new log.new stored.now tables.new online.new pool.now) }
{
    let lent = Areas {
        fixed,
        marks: &*marks,
        log: &*log,
        stored,
        tables: &*tables,
        online: &*online,
        pool,
    };
    match verdict::judge_commit(&lent, number) {
        Err(why) => crate::answer::refused(why),
        Ok(()) => {
            let logs = commit::commit(
                fixed,
                marks,
                log,
                stored,
                tables,
                online,
                pool,
                number as u8,
            );
            crate::answer::done(0, 0, logs)
        }
    }
}
