// Format: a new store over the stored pages as they are.
ghost use Rattle.rules.specs.Lent.{given};
ghost use Rattle.rules.specs.Areas.{areas};
ghost use Rattle.rules.specs.Calls.{format_call};
ghost use Rattle.ventarico.specs.Said.{Told};

use rules::{Areas, Params, Reply};

pub fn ventarico_format(
    fixed: &mut [u8],
    marks: &mut [u8],
    log: &mut [u8],
    stored: &[u8],
    tables: &mut [u8],
    online: &mut [u8],
    pool: &[u8],
    page_size: u32,
    pages: u32,
    frames: u32,
    online_size: u32,
    log_size: u32,
    last: u32,
) -> Reply
    ensures { Told (format_call (areas fixed.old marks.old log.old stored.now tables.old online.old pool.now) (given page_size pages frames online_size log_size) last) result
        (areas fixed.new marks.new log.new stored.now tables.new online.new pool.now) }
{
    let g = Params {
        size: u64::from(page_size),
        pages: u64::from(pages),
        frames: u64::from(frames),
        online: u64::from(online_size),
        log: u64::from(log_size),
    };
    let lent = Areas {
        fixed: &*fixed,
        marks: &*marks,
        log: &*log,
        stored,
        tables: &*tables,
        online: &*online,
        pool,
    };
    match verdict::judge_format(&lent, g, last) {
        Err(why) => crate::answer::refused(why),
        Ok(()) => {
            format::format(
                fixed,
                marks,
                log,
                stored,
                tables,
                online,
                pool,
                g,
                u64::from(last),
            );
            crate::answer::done(0, 0, 0)
        }
    }
}
