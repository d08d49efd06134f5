// Update bytes of a page.
ghost use Rattle.rules.specs.Areas.{areas};
ghost use Rattle.rules.specs.Calls.{update_call};
ghost use Rattle.ventarico.specs.Said.{Told};

use number::PageNo;
use rules::{Areas, Reply};

pub fn ventarico_update(
    fixed: &[u8],
    marks: &[u8],
    log: &[u8],
    stored: &[u8],
    tables: &mut [u8],
    online: &mut [u8],
    pool: &mut [u8],
    number: u32,
    page: u32,
    offset: u32,
    length: u32,
    kind: u32,
    value: u64,
) -> Reply
    ensures { Told (update_call (areas fixed.now marks.now log.now stored.now tables.old online.old pool.old) number page offset length kind value) result
        (areas fixed.now marks.now log.now stored.now tables.new online.new pool.new) }
{
    let lent = Areas {
        fixed,
        marks,
        log,
        stored,
        tables: &*tables,
        online: &*online,
        pool: &*pool,
    };
    match verdict::judge_update(&lent, number, page, offset, length, kind, value) {
        Err(why) => crate::answer::refused(why),
        Ok(()) => {
            let reads = fetch::update(
                fixed,
                marks,
                log,
                stored,
                tables,
                online,
                pool,
                PageNo(page as usize),
                offset as usize,
                length as usize,
                kind as u8,
                value,
                number as u8,
            );
            crate::answer::done(reads, 0, 0)
        }
    }
}
