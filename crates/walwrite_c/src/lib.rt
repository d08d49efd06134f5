// Committed pages written as a log, exported: the call of crate walwrite of the same name, and its promise.
#![tactic(auto)]

ghost use Rattle.std.specs.Prelude.{◌≡◌};
ghost use Rattle.rules.specs.Areas.{areas};
ghost use Rattle.walwrite.specs.Write.{write_call};

use rules::Reply;

// Writes the log of the listed pages (from 0 here, from 1 there) to the front of the target.
#[unsafe(no_mangle)]
pub extern "C" fn ventarico_wal_write(
    fixed: &[u8],
    marks: &[u8],
    log: &[u8],
    stored: &[u8],
    tables: &[u8],
    online: &[u8],
    pool: &[u8],
    list: &[u32],
    target: &mut [u8],
    salt_1: u32,
    salt_2: u32,
    sequence: u32,
    order: u32,
) -> Reply
    ensures { record { reply = result; target = target.new } ≡ write_call (areas fixed.now marks.now log.now stored.now tables.now online.now pool.now) list.now target.old salt_1 salt_2 sequence order }
{
    walwrite::ventarico_wal_write(
        fixed, marks, log, stored, tables, online, pool, list, target, salt_1, salt_2, sequence,
        order,
    )
}
