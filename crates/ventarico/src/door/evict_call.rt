// Evict a page from its frame.
ghost use Rattle.rules.specs.Areas.{areas};
ghost use Rattle.rules.specs.Calls.{evict_call};
ghost use Rattle.ventarico.specs.Said.{Told};

use number::PageNo;
use rules::{Areas, Reply};

pub fn ventarico_evict(
    fixed: &[u8],
    marks: &[u8],
    log: &[u8],
    stored: &[u8],
    tables: &mut [u8],
    online: &[u8],
    pool: &[u8],
    page: u32,
) -> Reply
    ensures { Told (evict_call (areas fixed.now marks.now log.now stored.now tables.old online.now pool.now) page) result
        (areas fixed.now marks.now log.now stored.now tables.new online.now pool.now) }
{
    let lent = Areas {
        fixed,
        marks,
        log,
        stored,
        tables: &*tables,
        online,
        pool,
    };
    match verdict::judge_evict(&lent, page) {
        Err(why) => crate::answer::refused(why),
        Ok(()) => {
            let p = PageNo(page as usize);
            steps::evict::evict(fixed, marks, log, stored, tables, online, pool, p);
            crate::answer::done(0, 0, 0)
        }
    }
}
