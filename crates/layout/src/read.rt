// The numbers at the front of `marks` and `tables`.
ghost use Rattle.std.specs.Prelude.{◌≡◌, ◌+◌, ◌-◌, ◌≤◌, ◌<◌, length};
ghost use Rattle.rules.specs.Lent.{stamps_at, last_in, logged_in, count_in};

use number::LogNo;

// L, the last log number.
pub fn last_of(marks: &[u8]) -> LogNo
    requires { stamps_at ≤ length marks.now }
    ensures { (result.0 ≡ last_in marks.now) × (result.0 < 4294967296) }
{
    LogNo(word::load(marks, crate::LAST_AT, 4))
}

// n, how many records the log holds.
pub fn logged_of(marks: &[u8]) -> usize
    requires { stamps_at ≤ length marks.now }
    ensures { (result ≡ logged_in marks.now) × (result < 4294967296) }
{
    word::load(marks, crate::LOGGED_AT, 4) as usize
}

// L - n + 1, the number of the first log record.
pub fn first_of(marks: &[u8]) -> LogNo
    requires { (stamps_at ≤ length marks.now) × (logged_in marks.now ≤ last_in marks.now) }
    ensures { (result.0 ≡ last_in marks.now - logged_in marks.now + 1) × (result.0 ≤ 4294967296) }
{
    let last = last_of(marks);
    let n = logged_of(marks);
    LogNo(last.0 - n as u64 + 1)
}

// m, how many rows are online.
pub fn count_of(tables: &[u8]) -> usize
    requires { 2 ≤ length tables.now }
    ensures { (result ≡ count_in tables.now) × (result < 65536) }
{
    word::load(tables, crate::COUNT_AT, 2) as usize
}
