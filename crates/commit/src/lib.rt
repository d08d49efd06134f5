// Commit: an owner's rows are appended to the log and numbered, L and n go up, and the transaction ends.
#![tactic(auto)]

ghost use Rattle.std.specs.Prelude.{◌≡◌, true, cond, ◌++◌, map, ◌+◌, ◌*◌, ◌≤◌, length, take, drop, set, eqb};
ghost use Rattle.word.specs.Word.{put};
ghost use Rattle.record.specs.Rows.{rows, joined, keep};
ghost use Rattle.record.specs.Record.{online_width, log_width, owned_by, body_of, number_rows};
ghost use Rattle.rules.specs.Lent.{last_at, logged_at, stamps_at, last_in, logged_in, log_size_of, last_of, logged_of, count_of, live_at};
ghost use Rattle.rules.specs.Areas.{areas};
ghost use Rattle.rules.specs.Shape.{Shaped};
ghost use Rattle.rules.specs.Sound.{zeros};
ghost use Rattle.rules.specs.Steps.{owned, committing};

use layout::read;
use record::row;

// The owner's rows of the first m appended to the log, then numbered from L + 1 on; how many.
fn commit_rows(marks: &[u8], log: &mut [u8], online: &mut [u8], m: usize, owner: u8) -> usize
    requires { (stamps_at ≤ length marks.now) × (m * online_width ≤ length online.old) × (logged_in marks.now * log_width + length (keep (owned_by owner) (rows online_width m online.old 0)) * log_width ≤ length log.old) }
    ensures { (log.new ≡ take (logged_in marks.now * log_width) log.old ++ (joined (map body_of (keep (owned_by owner) (rows online_width m online.old 0))) ++ drop ((logged_in marks.now + length (keep (owned_by owner) (rows online_width m online.old 0))) * log_width) log.old)) × (online.new ≡ joined (number_rows owner (last_in marks.now + 1) (rows online_width m online.old 0)) ++ drop (m * online_width) online.old) × (result ≡ length (keep (owned_by owner) (rows online_width m online.old 0))) }
{
    let last = read::last_of(marks);
    let n = read::logged_of(marks);
    let full = table::append_log(
        log,
        n,
        row::first_rows::<{ record::ONLINE_WIDTH }>(online, m),
        owner,
    );
    table::number_rows(online, m, owner, last.0 + 1);
    full - n
}

// L and n go up by k.
fn count_up(marks: &mut [u8], k: usize)
    requires { (stamps_at ≤ length marks.old) × (k ≤ 65536) }
    ensures { marks.new ≡ put 4 (put 4 marks.old last_at (last_in marks.old + k)) logged_at (logged_in marks.old + k) }
{
    let last = read::last_of(marks);
    let n = read::logged_of(marks);
    word::store(marks, layout::LAST_AT, 4, last.0 + k as u64);
    word::store(marks, layout::LOGGED_AT, 4, (n + k) as u64);
}

// The transaction is live no more.
fn end(tables: &mut [u8], owner: u8)
    requires { (37 ≤ length tables.old) × (owner ≤ 32) }
    ensures { tables.new ≡ set tables.old (live_at owner) 0 }
{
    tables[layout::LIVE_AT + usize::from(owner)] = 0;
}

// One log write if there are records.
fn writes(k: usize) -> u32
    ensures { result ≡ cond (eqb k 0) 0 1 }
{
    u32::from(k != 0)
}

// Commit, on all the lent areas; how many log writes.
pub fn commit(
    fixed: &[u8],
    marks: &mut [u8],
    log: &mut [u8],
    stored: &[u8],
    tables: &mut [u8],
    online: &mut [u8],
    pool: &[u8],
    owner: u8,
) -> u32
    requires { Shaped (areas fixed.now marks.old log.old stored.now tables.old online.old pool.now) × (1 ≤ owner) × (owner ≤ 32) × (logged_of (areas fixed.now marks.old log.old stored.now tables.old online.old pool.now) + length (owned (areas fixed.now marks.old log.old stored.now tables.old online.old pool.now) owner) ≤ log_size_of (areas fixed.now marks.old log.old stored.now tables.old online.old pool.now)) × (last_of (areas fixed.now marks.old log.old stored.now tables.old online.old pool.now) + length (owned (areas fixed.now marks.old log.old stored.now tables.old online.old pool.now) owner) ≤ 4294967295) × (zeros (drop (count_of (areas fixed.now marks.old log.old stored.now tables.old online.old pool.now) * online_width) online.old) ≡ true) × (zeros (drop (logged_of (areas fixed.now marks.old log.old stored.now tables.old online.old pool.now) * log_width) log.old) ≡ true) }
    ensures { (result ≡ (committing (areas fixed.now marks.old log.old stored.now tables.old online.old pool.now) owner).logs) × (areas fixed.now marks.new log.new stored.now tables.new online.new pool.now ≡ (committing (areas fixed.now marks.old log.old stored.now tables.old online.old pool.now) owner).lent) }
{
    let m = read::count_of(tables);
    let k = commit_rows(marks, log, online, m, owner);
    count_up(marks, k);
    end(tables, owner);
    writes(k)
}
