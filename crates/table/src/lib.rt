// Tables of rows, worked on in place: the online table, of 19 bytes a row, and the log, of 14.
#![tactic(auto)]

mod bytes;
pub mod mark;
pub mod page;

ghost use Rattle.std.specs.Prelude.{◌≡◌, true, cond, ◌++◌, map, ◌+◌, ◌*◌, ◌-◌, ◌^◌, ◌≤◌, ◌<◌, length, take, drop};
ghost use Rattle.record.specs.Part.{with_part};
ghost use Rattle.record.specs.Rows.{row_at, rows, joined, table, keep};
ghost use Rattle.record.specs.Record.{online_width, log_width, owned_by, body_of, row_of, entered, numbered, number_rows, gone};
ghost use Rattle.table.specs.Stays.{gone_of, stays_of};
ghost use Rattle.table.specs.Before.{NoneBefore, NoneFrom};
ghost use Rattle.table.specs.Seen.{Surveyed};

use number::{LogNo, PageNo};
use page::Survey;
use record::row;
use record::row::{LogRow, OnlineRow};

// How many of the rows are the owner's.
pub fn count_owned(online: &[OnlineRow], owner: u8) -> usize
    ensures { (result ≡ length (keep (owned_by owner) online.now)) × (result ≤ length online.now) }
{
    let mut n = 0;
    for row in online {
        if row::owner_of(row) == owner {
            n += 1;
        }
    }
    n
}

// An update's record as a row.
#[tactic(auto, unfolding(record::specs::Record::row_of))]
fn fill_row(row: &mut [u8], page: PageNo, offset: usize, w: usize, kind: u8, v: u64, owner: u8)
    requires { (length row.old ≡ online_width) × (w < 256) }
    ensures { row.new ≡ row_of page.0 offset w kind v owner }
{
    fill::wipe(row);
    word::store(row, 0, 2, page.0 as u64);
    word::store(row, record::OFFSET_AT, 2, offset as u64);
    row[record::LENGTH_AT] = w as u8;
    row[record::KIND_AT] = kind;
    word::store(row, record::VALUE_AT, 8, v);
    row[record::OWNER_AT] = owner;
}

// An update's record in row m.
pub fn append(
    t: &mut [u8],
    m: usize,
    page: PageNo,
    offset: usize,
    w: usize,
    kind: u8,
    v: u64,
    owner: u8,
)
    requires { (m * online_width + online_width ≤ length t.old) × (page.0 < 65536) × (offset < 65536) × (w < 256) }
    ensures { t.new ≡ with_part (m * online_width) online_width t.old (row_of page.0 offset w kind v owner) }
{
    let a = m * record::ONLINE_WIDTH;
    let e = a + record::ONLINE_WIDTH;
    fill_row(&mut t[a..e], page, offset, w, kind, v, owner);
}

// The bytes of a log row, under its number, as a committed row. It is made apart, so that its bytes can move as words.
#[tactic(auto, unfolding(record::specs::Record::entered))]
fn enter_row(place: &mut [u8], row: &LogRow, k: LogNo)
    requires { length place.old ≡ online_width }
    ensures { place.new ≡ entered row.now k.0 }
{
    let mut made = [0u8; record::ONLINE_WIDTH];
    fill::copy(&mut made[..record::LOG_WIDTH], row);
    word::store(&mut made, record::NUMBER_AT, 4, k.0);
    fill::copy(place, &made);
}

// A row of the log in row m, committed under the number k.
pub fn enter(t: &mut [u8], m: usize, row: &LogRow, k: LogNo)
    requires { m * online_width + online_width ≤ length t.old }
    ensures { t.new ≡ with_part (m * online_width) online_width t.old (entered row.now k.0) }
{
    let a = m * record::ONLINE_WIDTH;
    let e = a + record::ONLINE_WIDTH;
    enter_row(&mut t[a..e], row, k);
}

// A row of the owner's committed under a number; the next number.
#[tactic(auto, unfolding(record::specs::Record::numbered))]
fn number_row(row: &mut [u8], owner: u8, k: u64) -> u64
    requires { (length row.old ≡ online_width) × (k < 2 ^ 63) }
    ensures { (row.new ≡ cond (owned_by owner row.old) (numbered row.old k) row.old) × (result ≡ cond (owned_by owner row.old) (k + 1) k) }
{
    if row[record::OWNER_AT] != owner {
        return k;
    }
    row[record::OWNER_AT] = 0;
    word::store(row, record::NUMBER_AT, 4, k);
    k + 1
}

// The owner's rows of the first m committed, with numbers from `next` on in table order; the number after the last.
pub fn number_rows(t: &mut [u8], m: usize, owner: u8, next: u64) -> u64
    requires { (m * online_width ≤ length t.old) × (next + m < 2 ^ 63) }
    ensures { (t.new ≡ joined (number_rows owner next (rows online_width m t.old 0)) ++ drop (m * online_width) t.old) × (result ≡ next + length (keep (owned_by owner) (rows online_width m t.old 0))) }
{
    let mut k = next;
    for j in 0..m {
        let a = j * record::ONLINE_WIDTH;
        let e = a + record::ONLINE_WIDTH;
        k = number_row(&mut t[a..e], owner, k);
    }
    k
}

// The record of a row, if it is the owner's, in row k of the log; the next row of the log.
fn log_row(log: &mut [u8], k: usize, row: &OnlineRow, owner: u8) -> usize
    requires { owned_by owner row.now ≡ true → k * log_width + log_width ≤ length log.old }
    ensures { (log.new ≡ cond (owned_by owner row.now) (with_part (k * log_width) log_width log.old (body_of row.now)) log.old) × (result ≡ cond (owned_by owner row.now) (k + 1) k) }
{
    if row::owner_of(row) != owner {
        return k;
    }
    let a = k * record::LOG_WIDTH;
    let e = a + record::LOG_WIDTH;
    fill::copy(&mut log[a..e], &row[..record::LOG_WIDTH]);
    k + 1
}

// The records of the owner's rows after the n rows of the log, in table order; how many rows the log then has.
pub fn append_log(log: &mut [u8], n: usize, online: &[OnlineRow], owner: u8) -> usize
    requires { n * log_width + length (keep (owned_by owner) online.now) * log_width ≤ length log.old }
    ensures { (log.new ≡ take (n * log_width) log.old ++ (joined (map body_of (keep (owned_by owner) online.now)) ++ drop ((n + length (keep (owned_by owner) online.now)) * log_width) log.old)) × (result ≡ n + length (keep (owned_by owner) online.now)) }
{
    let mut k = n;
    for row in online {
        k = log_row(log, k, row, owner);
    }
    k
}

// Whether a row is one to delete: the owner's, or those of the owner's that are of one page.
// Few are of the one page: the others are told by that alone.
fn is_gone(row: &OnlineRow, owner: u8, of: Option<PageNo>) -> bool
    ensures { result ≡ gone_of of owner row.now }
{
    if let Some(p) = of
        && row::page_of(row) != p
    {
        return false;
    }
    row::owner_of(row) == owner
}

// Row j, if it stays, moved down to row k; the next row to move to.
fn keep_row(t: &mut [u8], k: usize, j: usize, owner: u8, of: Option<PageNo>) -> usize
    requires { (k ≤ j) × (j * online_width + online_width ≤ length t.old) }
    ensures { (t.new ≡ cond (stays_of of owner (row_at online_width t.old j)) (with_part (k * online_width) online_width t.old (row_at online_width t.old j)) t.old) × (result ≡ cond (stays_of of owner (row_at online_width t.old j)) (k + 1) k) }
{
    if is_gone(row::row_at(t, j), owner, of) {
        return k;
    }
    bytes::slide_row(t, j * record::ONLINE_WIDTH, k * record::ONLINE_WIDTH);
    k + 1
}

// The rows before row `to` that stay, moved to the front; how many. What stands after them, up to row `to`, is left over.
// Those before row `from` all stay: they stand where they are to be.
fn squeeze(t: &mut [u8], from: usize, to: usize, owner: u8, of: Option<PageNo>) -> usize
    requires { (to * online_width ≤ length t.old) × (from ≤ to) × (keep (stays_of of owner) (rows online_width from t.old 0) ≡ rows online_width from t.old 0) }
    ensures { (take (result * online_width) t.new ≡ joined (keep (stays_of of owner) (rows online_width to t.old 0))) × (result ≡ length (keep (stays_of of owner) (rows online_width to t.old 0))) × (result ≤ to) × (drop (to * online_width) t.new ≡ drop (to * online_width) t.old) }
{
    let mut k = from;
    for j in from..to {
        k = keep_row(t, k, j, owner, of);
    }
    k
}

// The rows from `to` up to m, which all stay and so need no test, moved down to row k; the row after the last of them.
#[tactic(auto, using(crate::proofs::Turns::moved_up))]
fn close_up(t: &mut [u8], to: usize, m: usize, k: usize) -> usize
    requires { (m * online_width ≤ length t.old) × (to ≤ m) × (k ≤ to) }
    ensures { (take (result * online_width) t.new ≡ take (k * online_width) t.old ++ joined (rows online_width (m - to) t.old to)) × (result ≡ k + (m - to)) }
{
    let n = m - to;
    bytes::slide(
        t,
        to * record::ONLINE_WIDTH,
        k * record::ONLINE_WIDTH,
        n * record::ONLINE_WIDTH,
    );
    k + n
}

// The owner's rows of the first m deleted, all or those of one page; how many rows are left. The rest of the table is zero.
// None of them stands before row `from`, and none from row `to` on.
pub fn delete(
    t: &mut [u8],
    from: usize,
    to: usize,
    m: usize,
    size: usize,
    owner: u8,
    of: Option<PageNo>,
) -> usize
    requires { (length t.old ≡ size * online_width) × (m ≤ size) × (from ≤ to) × (to ≤ m) × NoneBefore (gone_of of owner) (rows online_width m t.old 0) from × NoneFrom (gone_of of owner) (rows online_width m t.old 0) to m }
    ensures { (t.new ≡ table online_width size (keep (stays_of of owner) (rows online_width m t.old 0))) × (result ≡ length (keep (stays_of of owner) (rows online_width m t.old 0))) }
{
    let k = squeeze(t, from, to, owner, of);
    let left = close_up(t, to, m, k);
    bytes::clear(t, left * record::ONLINE_WIDTH);
    left
}

// The first d of the n rows of the log dropped. The rest of the log is zero.
#[tactic(auto, using(crate::proofs::Turns::shifted))]
pub fn shift(t: &mut [u8], n: usize, size: usize, d: usize)
    requires { (length t.old ≡ size * log_width) × (n ≤ size) × (d ≤ n) }
    ensures { t.new ≡ table log_width size (drop d (rows log_width n t.old 0)) }
{
    let k = (n - d) * record::LOG_WIDTH;
    bytes::slide(t, d * record::LOG_WIDTH, 0, k);
    bytes::clear(t, k);
}

// The rows of page p.
pub fn survey(online: &[OnlineRow], p: PageNo) -> Survey
    ensures { Surveyed p.0 online.now result }
{
    let mut s = Survey {
        all: 0,
        committed: 0,
        least: 0,
        most: 0,
        from: online.len(),
        to: online.len(),
    };
    for (i, row) in online.iter().enumerate() {
        s = page::look(s, i, row, p);
    }
    s
}
