// S7, S8, S10 and S11: what each row shows without the others, in one walk, so that its fields are read once.
// A row is asked a clause once it has passed those before, which the clause may lean on.
ghost use Rattle.std.specs.Prelude.{◌≡◌, ◌+◌, ◌-◌, ◌≤◌, ◌<◌, length};
ghost use Rattle.rules.specs.Sound.{every};
ghost use Rattle.rules.specs.Lent.{order_at, marks_length};
ghost use Rattle.onlinecheck.specs.Online.{row_test};

use super::{logged, owned, stamped};
use durable::Limits;
use number::LogNo;
use record::row::{LogRow, OnlineRow};

#[tactic(auto, using(crate::proofs::Laws::owned_number, rules::proofs::Clauses::formed_below))]
fn is_sound(
    row: &OnlineRow,
    log: &[LogRow],
    marks: &[u8],
    tables: &[u8],
    first: LogNo,
    last: u64,
    limits: &Limits,
) -> bool
    requires { (last < first.0 + length log.now) × (length marks.now ≡ marks_length limits.now.pages) × (order_at ≤ length tables.now) }
    ensures { result ≡ row_test tables.now log.now marks.now limits.now.size limits.now.pages last first.0 row.now }
{
    if !limits.well_formed(row) {
        return false;
    }
    if !owned::is_owned(row, tables, last) {
        return false;
    }
    if !logged::is_logged(row, log, first) {
        return false;
    }
    stamped::is_above(row, marks, limits.pages)
}

pub fn all_sound(
    online: &[OnlineRow],
    log: &[LogRow],
    marks: &[u8],
    tables: &[u8],
    size: usize,
    pages: usize,
    first: LogNo,
    last: u64,
) -> bool
    requires { (last < first.0 + length log.now) × (length marks.now ≡ marks_length pages) × (order_at ≤ length tables.now) × (8 ≤ size) }
    ensures { result ≡ every (row_test tables.now log.now marks.now size pages last first.0) online.now }
{
    let limits = Limits::new(size, pages);
    online.iter().all(|row| is_sound(row, log, marks, tables, first, last, &limits))
}
