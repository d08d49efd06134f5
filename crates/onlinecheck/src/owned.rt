// S8: an uncommitted row has a live owner and no number, a committed one a number up to the last.
ghost use Rattle.std.specs.Prelude.{◌≡◌, ◌≤◌, length};
ghost use Rattle.rules.specs.Lent.{order_at};
ghost use Rattle.onlinecheck.specs.Online.{owning_in};

use record::row;
use record::row::OnlineRow;

pub fn is_owned(row: &OnlineRow, tables: &[u8], last: u64) -> bool
    requires { order_at ≤ length tables.now }
    ensures { result ≡ owning_in tables.now last row.now }
{
    let x = row::owner_of(row);
    let k = row::number_of(row);
    if x == 0 {
        return (1 <= k.0) & (k.0 <= last);
    }
    if 32 < x {
        return false;
    }
    let at = layout::LIVE_AT + usize::from(x);
    (k.0 == 0) & (tables[at] == 1)
}
