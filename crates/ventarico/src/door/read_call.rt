// Read bytes of a page.
ghost use Rattle.std.specs.Prelude.{◌≡◌};
ghost use Rattle.rules.specs.Areas.{areas};
ghost use Rattle.rules.specs.Calls.{read_call};
ghost use Rattle.ventarico.specs.Said.{Told};

use number::PageNo;
use rules::{Areas, Reply};

pub fn ventarico_read(
    fixed: &[u8],
    marks: &[u8],
    log: &[u8],
    stored: &[u8],
    tables: &mut [u8],
    online: &[u8],
    pool: &mut [u8],
    buffer: &mut [u8],
    number: u32,
    page: u32,
    offset: u32,
    length: u32,
) -> Reply
    ensures { (Told (read_call (areas fixed.now marks.now log.now stored.now tables.old online.now pool.old) buffer.old number page offset length) result
        (areas fixed.now marks.now log.now stored.now tables.new online.now pool.new)) × (buffer.new ≡ (read_call (areas fixed.now marks.now log.now stored.now tables.old online.now pool.old) buffer.old number page offset length).buffer) }
{
    let room = buffer.len();
    let lent = Areas {
        fixed,
        marks,
        log,
        stored,
        tables: &*tables,
        online,
        pool: &*pool,
    };
    match verdict::judge_read(&lent, room, number, page, offset, length) {
        Err(why) => crate::answer::refused(why),
        Ok(()) => {
            let reads = fetch::read(
                fixed,
                marks,
                log,
                stored,
                tables,
                online,
                pool,
                buffer,
                PageNo(page as usize),
                offset as usize,
                length as usize,
            );
            crate::answer::done(reads, 0, 0)
        }
    }
}
