// A page's rows, looked at one by one.
ghost use Rattle.std.specs.Prelude.{◌^◌, ◌-◌, ◌≤◌, ◌<◌};
ghost use Rattle.record.specs.Rows.{row_at};
ghost use Rattle.record.specs.Record.{online_width};
ghost use Rattle.table.specs.Seen.{Seen};

use number::PageNo;
use record::row;
use record::row::OnlineRow;

// What the rows of a page come to: how many, how many of them committed, the smallest and the greatest number of those (0: none),
// and the rows from which on and up to which those stand (with none: the end).
#[derive(Clone, Copy)]
pub struct Survey {
    pub all: usize,
    pub committed: usize,
    pub least: u64,
    pub most: u64,
    pub from: usize,
    pub to: usize,
}

// The survey with a row besides, which is row i.
pub fn look(s: Survey, i: usize, row: &OnlineRow, p: PageNo) -> Survey
    requires { (s.all ≤ i) × (s.committed ≤ i) × (i < 2 ^ 64 - 1) }
    ensures { Seen s p.0 i row.now result }
{
    if row::page_of(row) != p {
        return s;
    }
    if row::owner_of(row) != 0 {
        return Survey {
            all: s.all + 1,
            ..s
        };
    }
    let k = row::number_of(row);
    Survey {
        all: s.all + 1,
        committed: s.committed + 1,
        least: record::lesser_of(s.least, k.0),
        most: s.most.max(k.0),
        from: s.from.min(i),
        to: i + 1,
    }
}
