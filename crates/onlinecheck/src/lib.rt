// The check of the online table: the clauses of soundness that are about its rows, in their order.
// A clause runs once those before it hold, and may lean on them.
#![tactic(auto)]

ghost use Rattle.std.specs.Prelude.{◌≡◌, true, ◌&&◌, ◌+◌, ◌-◌, ◌≤◌, ◌<◌, length};
ghost use Rattle.record.specs.Part.{part};
ghost use Rattle.record.specs.Record.{well_formed};
ghost use Rattle.rules.specs.Sound.{every, pairs, up_to, zeros, apart};
ghost use Rattle.rules.specs.Lent.{order_at, marks_length};
ghost use Rattle.rules.specs.Shape.{page_below};
ghost use Rattle.onlinecheck.specs.Online.{owning_in, in_log, past_stamp, other_number, entry_agrees, online_test};
ghost use Rattle.onlinecheck.specs.Marks.{slotted};
ghost use Rattle.onlinecheck.specs.Bytes.{bounded};

use number::LogNo;
use record::row::{LogRow, OnlineRow};

mod owned; // S8
mod logged; // S10
mod stamped; // S11
mod each; // S7, S8, S10, S11
mod once; // S9
mod dirty; // S12
mod few; // S13, few rows
mod apart; // S13

// The rows by themselves, with their owners, the log and the stamps, and the bytes behind them.
fn sound_rows(
    online: &[OnlineRow],
    behind: &[u8],
    log: &[LogRow],
    marks: &[u8],
    tables: &[u8],
    size: usize,
    pages: usize,
    first: LogNo,
    last: u64,
) -> bool
    requires { (last < first.0 + length log.now) × (length marks.now ≡ marks_length pages) × (order_at ≤ length tables.now) × (8 ≤ size) }
    ensures { result ≡ (every (well_formed size pages) online.now && every (owning_in tables.now last) online.now && zeros behind.now && every (in_log log.now first.0) online.now && every (past_stamp marks.now) online.now) }
{
    each::all_sound(online, log, marks, tables, size, pages, first, last)
        && durable::all_zero(behind) // S14
}

// The rows with the entries and one another.
#[tactic(auto, using(crate::proofs::Marks::pages_within))]
fn sound_ties(
    online: &[OnlineRow],
    first: LogNo,
    tables: &[u8],
    pages: usize,
    frames: usize,
) -> bool
    requires { (length tables.now ≡ order_at + frames + pages) × (pages ≤ 1024) × (every (page_below pages) online.now ≡ true) × (every (slotted first.0) online.now ≡ true) × (length online.now ≤ 512) × (every bounded online.now ≡ true) }
    ensures { result ≡ (pairs other_number online.now && up_to (entry_agrees (part (order_at + frames) pages tables.now) online.now) pages 0 && pairs apart online.now) }
{
    once::all_once(online, first)
        && dirty::all_agree(online, tables, pages, frames)
        && apart::all_apart(online)
}

// The rows of the online table are sound with the bytes behind them, the log's rows, the stamps and the tables; `last` is the last log number.
pub fn sound_online(
    online: &[OnlineRow],
    behind: &[u8],
    log: &[LogRow],
    marks: &[u8],
    tables: &[u8],
    size: usize,
    pages: usize,
    frames: usize,
    last: u64,
) -> bool
    requires { (length log.now ≤ last) × (last < 4294967296) × (length marks.now ≡ marks_length pages) × (length tables.now ≡ order_at + frames + pages) × (pages ≤ 1024) × (frames ≤ 64) × (size ≤ 4096) × (length online.now ≤ 512) × (length log.now ≤ 2048) × (8 ≤ size) }
    ensures { result ≡ online_test online.now behind.now log.now marks.now tables.now size pages frames last }
{
    let first = LogNo(last - log.len() as u64 + 1);
    sound_rows(online, behind, log, marks, tables, size, pages, first, last)
        && sound_ties(online, first, tables, pages, frames)
}
