// The calls of the store, exported: each is the call of crate ventarico of the same name, and promises what that promises.
#![tactic(auto)]

ghost use Rattle.std.specs.Prelude.{◌≡◌};
ghost use Rattle.clerk.specs.Rule.{aborts, begins, commits};
ghost use Rattle.rules.specs.Areas.{areas};
ghost use Rattle.rules.specs.Calls.{abort_call, begin_call, checkpoint_call, close_call, commit_call, compact_call, evict_call, format_call, read_call, restart_call, update_call};
ghost use Rattle.rules.specs.Lent.{given};
ghost use Rattle.ventarico.specs.Said.{Settled, Told};

use clerk::Clerk;
use rules::Reply;

// Format: a new store over the stored pages as they are.
#[unsafe(no_mangle)]
pub extern "C" fn ventarico_format(
    fixed: &mut [u8],
    marks: &mut [u8],
    log: &mut [u8],
    stored: &[u8],
    tables: &mut [u8],
    online: &mut [u8],
    pool: &[u8],
    page_size: u32,
    pages: u32,
    frames: u32,
    online_size: u32,
    log_size: u32,
    last: u32,
) -> Reply
    ensures { Told (format_call (areas fixed.old marks.old log.old stored.now tables.old online.old pool.now) (given page_size pages frames online_size log_size) last) result
        (areas fixed.new marks.new log.new stored.now tables.new online.new pool.now) }
{
    ventarico::door::format_call::ventarico_format(
        fixed,
        marks,
        log,
        stored,
        tables,
        online,
        pool,
        page_size,
        pages,
        frames,
        online_size,
        log_size,
        last,
    )
}

// Restart after a power loss.
#[unsafe(no_mangle)]
pub extern "C" fn ventarico_restart(
    fixed: &[u8],
    marks: &[u8],
    log: &[u8],
    stored: &[u8],
    tables: &mut [u8],
    online: &mut [u8],
    pool: &[u8],
) -> Reply
    ensures { Told (restart_call (areas fixed.now marks.now log.now stored.now tables.old online.old pool.now)) result
        (areas fixed.now marks.now log.now stored.now tables.new online.new pool.now) }
{
    ventarico::door::restart_call::ventarico_restart(
        fixed, marks, log, stored, tables, online, pool,
    )
}

// Begin a transaction.
#[unsafe(no_mangle)]
pub extern "C" fn ventarico_begin(
    fixed: &[u8],
    marks: &[u8],
    log: &[u8],
    stored: &[u8],
    tables: &mut [u8],
    online: &[u8],
    pool: &[u8],
    number: u32,
) -> Reply
    ensures { Told (begin_call (areas fixed.now marks.now log.now stored.now tables.old online.now pool.now) number) result
        (areas fixed.now marks.now log.now stored.now tables.new online.now pool.now) }
{
    ventarico::door::begin_call::ventarico_begin(
        fixed, marks, log, stored, tables, online, pool, number,
    )
}

// Read bytes of a page.
#[unsafe(no_mangle)]
pub extern "C" fn ventarico_read(
    fixed: &[u8],
    marks: &[u8],
    log: &[u8],
    stored: &[u8],
    tables: &mut [u8],
    online: &[u8],
    pool: &mut [u8],
    buffer: &mut [u8],
    number: u32,
    page: u32,
    offset: u32,
    length: u32,
) -> Reply
    ensures { (Told (read_call (areas fixed.now marks.now log.now stored.now tables.old online.now pool.old) buffer.old number page offset length) result
        (areas fixed.now marks.now log.now stored.now tables.new online.now pool.new)) × (buffer.new ≡ (read_call (areas fixed.now marks.now log.now stored.now tables.old online.now pool.old) buffer.old number page offset length).buffer) }
{
    ventarico::door::read_call::ventarico_read(
        fixed, marks, log, stored, tables, online, pool, buffer, number, page, offset, length,
    )
}

// Update bytes of a page.
#[unsafe(no_mangle)]
pub extern "C" fn ventarico_update(
    fixed: &[u8],
    marks: &[u8],
    log: &[u8],
    stored: &[u8],
    tables: &mut [u8],
    online: &mut [u8],
    pool: &mut [u8],
    number: u32,
    page: u32,
    offset: u32,
    length: u32,
    kind: u32,
    value: u64,
) -> Reply
    ensures { Told (update_call (areas fixed.now marks.now log.now stored.now tables.old online.old pool.old) number page offset length kind value) result
        (areas fixed.now marks.now log.now stored.now tables.new online.new pool.new) }
{
    ventarico::door::update_call::ventarico_update(
        fixed, marks, log, stored, tables, online, pool, number, page, offset, length, kind, value,
    )
}

// Commit a transaction.
#[unsafe(no_mangle)]
pub extern "C" fn ventarico_commit(
    fixed: &[u8],
    marks: &mut [u8],
    log: &mut [u8],
    stored: &[u8],
    tables: &mut [u8],
    online: &mut [u8],
    pool: &[u8],
    number: u32,
) -> Reply
    ensures { Told (commit_call (areas fixed.now marks.old log.old stored.now tables.old online.old pool.now) number) result
        (areas fixed.now marks.new log.new stored.now tables.new online.new pool.now) }
{
    ventarico::door::commit_call::ventarico_commit(
        fixed, marks, log, stored, tables, online, pool, number,
    )
}

// Abort a transaction.
#[unsafe(no_mangle)]
pub extern "C" fn ventarico_abort(
    fixed: &[u8],
    marks: &[u8],
    log: &[u8],
    stored: &[u8],
    tables: &mut [u8],
    online: &mut [u8],
    pool: &[u8],
    number: u32,
) -> Reply
    ensures { Told (abort_call (areas fixed.now marks.now log.now stored.now tables.old online.old pool.now) number) result
        (areas fixed.now marks.now log.now stored.now tables.new online.new pool.now) }
{
    ventarico::door::abort_call::ventarico_abort(
        fixed, marks, log, stored, tables, online, pool, number,
    )
}

// Evict a page from its frame.
#[unsafe(no_mangle)]
pub extern "C" fn ventarico_evict(
    fixed: &[u8],
    marks: &[u8],
    log: &[u8],
    stored: &[u8],
    tables: &mut [u8],
    online: &[u8],
    pool: &[u8],
    page: u32,
) -> Reply
    ensures { Told (evict_call (areas fixed.now marks.now log.now stored.now tables.old online.now pool.now) page) result
        (areas fixed.now marks.now log.now stored.now tables.new online.now pool.now) }
{
    ventarico::door::evict_call::ventarico_evict(
        fixed, marks, log, stored, tables, online, pool, page,
    )
}

// Compact one page.
#[unsafe(no_mangle)]
pub extern "C" fn ventarico_compact(
    fixed: &[u8],
    marks: &mut [u8],
    log: &[u8],
    stored: &mut [u8],
    tables: &mut [u8],
    online: &mut [u8],
    pool: &[u8],
    page: u32,
    min_del: u32,
    max_age: u32,
) -> Reply
    ensures { Told (compact_call (areas fixed.now marks.old log.now stored.old tables.old online.old pool.now) page min_del max_age) result
        (areas fixed.now marks.new log.now stored.new tables.new online.new pool.now) }
{
    ventarico::door::compact_call::ventarico_compact(
        fixed, marks, log, stored, tables, online, pool, page, min_del, max_age,
    )
}

// Close a checkpoint.
#[unsafe(no_mangle)]
pub extern "C" fn ventarico_close(
    fixed: &[u8],
    marks: &mut [u8],
    log: &mut [u8],
    stored: &[u8],
    tables: &[u8],
    online: &[u8],
    pool: &[u8],
) -> Reply
    ensures { Told (close_call (areas fixed.now marks.old log.old stored.now tables.now online.now pool.now)) result
        (areas fixed.now marks.new log.new stored.now tables.now online.now pool.now) }
{
    ventarico::door::close_call::ventarico_close(fixed, marks, log, stored, tables, online, pool)
}

// A whole checkpoint: compact for each page, then close.
#[unsafe(no_mangle)]
pub extern "C" fn ventarico_checkpoint(
    fixed: &[u8],
    marks: &mut [u8],
    log: &mut [u8],
    stored: &mut [u8],
    tables: &mut [u8],
    online: &mut [u8],
    pool: &[u8],
    min_del: u32,
    max_age: u32,
) -> Reply
    ensures { Told (checkpoint_call (areas fixed.now marks.old log.old stored.old tables.old online.old pool.now) min_del max_age) result
        (areas fixed.now marks.new log.new stored.new tables.new online.new pool.now) }
{
    ventarico::door::checkpoint_call::ventarico_checkpoint(
        fixed, marks, log, stored, tables, online, pool, min_del, max_age,
    )
}

// Makes the number live.
#[unsafe(no_mangle)]
pub extern "C" fn ventarico_clerk_begin(c: &mut Clerk, x: u32) -> u8
    ensures { Settled (begins c.old x) c.old result c.new }
{
    ventarico::clerk_call::ventarico_clerk_begin(c, x)
}

// Ends the transaction.
#[unsafe(no_mangle)]
pub extern "C" fn ventarico_clerk_abort(c: &mut Clerk, x: u32) -> u8
    ensures { Settled (aborts c.old x) c.old result c.new }
{
    ventarico::clerk_call::ventarico_clerk_abort(c, x)
}

// Ends the transaction and takes k log numbers for its records.
#[unsafe(no_mangle)]
pub extern "C" fn ventarico_clerk_commit(c: &mut Clerk, x: u32, k: u32) -> u8
    ensures { Settled (commits c.old x k) c.old result c.new }
{
    ventarico::clerk_call::ventarico_clerk_commit(c, x, k)
}
