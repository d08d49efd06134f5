// S13 for few rows: each uncommitted row is compared with all later ones, which for few is less than chains and marks.
ghost use Rattle.std.specs.Prelude.{◌≡◌, ◌<◌};
ghost use Rattle.record.specs.Record.{share_byte};
ghost use Rattle.rules.specs.Sound.{every, pairs, apart};

use record::row;
use record::row::OnlineRow;

#[tactic(auto, using(crate::proofs::Laws::share_other, crate::proofs::Laws::share_same))]
fn share(row: &OnlineRow, other: &OnlineRow) -> bool
    ensures { result ≡ share_byte row.now other.now }
{
    let p = row::page_of(row);
    let q = row::page_of(other);
    if p != q {
        return false;
    }
    let a = row::offset_of(row);
    let b = row::offset_of(other);
    let k = row::length_of(row);
    let l = row::length_of(other);
    (a < b + l) & (b < a + k)
}

#[tactic(auto, using(crate::proofs::Laws::apart_free, crate::proofs::Laws::apart_row))]
fn is_apart(row: &OnlineRow, other: &OnlineRow) -> bool
    ensures { result ≡ apart row.now other.now }
{
    let x = row::owner_of(row);
    let y = row::owner_of(other);
    if (x == 0) | (y == 0) | (x == y) {
        return true;
    }
    !share(row, other)
}

// A row and each later one; one that is committed is apart from all.
fn apart_after(row: &OnlineRow, later: &[OnlineRow]) -> bool
    ensures { result ≡ every (apart row.now) later.now }
{
    let x = row::owner_of(row);
    if x == 0 {
        return true;
    }
    later.iter().all(|other| is_apart(row, other))
}

#[tactic(auto, using(crate::proofs::Rows::pairs_fail, crate::proofs::Rows::pairs_turn, crate::proofs::Rows::pairs_done))]
pub fn all_apart_few(online: &[OnlineRow]) -> bool
    ensures { result ≡ pairs apart online.now }
{
    for (i, row) in online.iter().enumerate() {
        if !apart_after(row, &online[i + 1..]) {
            return false;
        }
    }
    true
}
