// A row as an array of its bytes, and a table's first rows as a slice of such arrays: what a loop over rows goes through.
ghost use Rattle.std.specs.Prelude.{◌≡◌, ◌+◌, ◌*◌, ◌≤◌, ◌<◌, length};
ghost use Rattle.record.specs.Rows.{row_at, rows};
ghost use Rattle.record.specs.Record.{log_width, online_width, page_of, offset_of, length_of, kind_of, value_of, owner_of, number_of};

use number::{LogNo, PageNo};

// A row of the log: the record alone.
pub type LogRow = [u8; crate::LOG_WIDTH];

// A row of the online table: owner and number stand behind the record.
pub type OnlineRow = [u8; crate::ONLINE_WIDTH];

// The first m rows of a table.
#[tactic(auto, using(crate::proofs::Listed::listed))]
pub fn first_rows<const W: usize>(t: &[u8], m: usize) -> &[[u8; W]]
    requires { (log_width ≤ W) × (W ≤ online_width) × (m * W ≤ length t.now) }
    ensures { result.now ≡ rows W m t.now 0 }
{
    let (whole, _) = t.as_chunks::<W>();
    &whole[..m]
}

// Row i of a table.
pub fn row_at<const W: usize>(t: &[u8], i: usize) -> &[u8; W]
    requires { (log_width ≤ W) × (i * W + W ≤ length t.now) }
    ensures { result.now ≡ row_at W t.now i }
{
    let a = i * W;
    let e = a + W;
    let (whole, _) = t[a..e].as_chunks::<W>();
    &whole[0]
}

// The fields of a row.

pub fn page_of<const W: usize>(row: &[u8; W]) -> PageNo
    requires { log_width ≤ W }
    ensures { (result.0 ≡ page_of row.now) × (result.0 < 65536) }
{
    PageNo(word::load(row, 0, 2) as usize)
}

pub fn offset_of<const W: usize>(row: &[u8; W]) -> usize
    requires { log_width ≤ W }
    ensures { (result ≡ offset_of row.now) × (result < 65536) }
{
    word::load(row, crate::OFFSET_AT, 2) as usize
}

pub fn length_of<const W: usize>(row: &[u8; W]) -> usize
    requires { log_width ≤ W }
    ensures { (result ≡ length_of row.now) × (result < 256) }
{
    usize::from(row[crate::LENGTH_AT])
}

pub fn kind_of<const W: usize>(row: &[u8; W]) -> u8
    requires { log_width ≤ W }
    ensures { result ≡ kind_of row.now }
{
    row[crate::KIND_AT]
}

pub fn value_of<const W: usize>(row: &[u8; W]) -> u64
    requires { log_width ≤ W }
    ensures { result ≡ value_of row.now }
{
    word::load(row, crate::VALUE_AT, 8)
}

// Of an online row.

pub fn owner_of(row: &OnlineRow) -> u8
    ensures { result ≡ owner_of row.now }
{
    row[crate::OWNER_AT]
}

pub fn number_of(row: &OnlineRow) -> LogNo
    ensures { (result.0 ≡ number_of row.now) × (result.0 < 4294967296) }
{
    LogNo(word::load(row, crate::NUMBER_AT, 4))
}
