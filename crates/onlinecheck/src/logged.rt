// S10: a committed row is the log's row of its number, the first of which is given. By S8 no number is above the last.
ghost use Rattle.std.specs.Prelude.{◌≡◌, ◌+◌, ◌-◌, ◌≤◌, ◌<◌, length};
ghost use Rattle.record.specs.Record.{number_of, body_of};
ghost use Rattle.rules.specs.Sound.{same};
ghost use Rattle.onlinecheck.specs.Online.{in_log};

use number::LogNo;
use record::row;
use record::row::{LogRow, OnlineRow};

// The online row's record is the log row, byte for byte: compared as numbers, since equal numbers have equal bytes.
// They are the fields, which the row's other tests have read too.
fn same_row(row: &OnlineRow, logged: &LogRow) -> bool
    ensures { result ≡ same (body_of row.now) logged.now }
{
    (row::page_of(row) == row::page_of(logged))
        & (row::offset_of(row) == row::offset_of(logged))
        & (row::length_of(row) == row::length_of(logged))
        & (row::kind_of(row) == row::kind_of(logged))
        & (row::value_of(row) == row::value_of(logged))
}

#[tactic(auto, using(crate::proofs::Laws::log_free, crate::proofs::Laws::log_before, crate::proofs::Laws::log_row))]
pub fn is_logged(row: &OnlineRow, log: &[LogRow], first: LogNo) -> bool
    requires { number_of row.now < first.0 + length log.now }
    ensures { result ≡ in_log log.now first.0 row.now }
{
    let x = row::owner_of(row);
    if x != 0 {
        return true;
    }
    let k = row::number_of(row);
    if k < first {
        return false;
    }
    let j = (k.0 - first.0) as usize;
    same_row(row, &log[j])
}
