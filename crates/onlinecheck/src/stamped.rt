// S11: a committed row's number is above its page's stamp. By S7 its page is in the store.
ghost use Rattle.std.specs.Prelude.{◌≡◌, ◌<◌, length};
ghost use Rattle.rules.specs.Lent.{marks_length};
ghost use Rattle.record.specs.Record.{page_of};
ghost use Rattle.onlinecheck.specs.Online.{past_stamp};

use number::LogNo;
use record::row;
use record::row::OnlineRow;

#[tactic(auto, using(crate::proofs::Laws::above_free, crate::proofs::Laws::above_row))]
pub fn is_above(row: &OnlineRow, marks: &[u8], pages: usize) -> bool
    requires { (length marks.now ≡ marks_length pages) × (page_of row.now < pages) }
    ensures { result ≡ past_stamp marks.now row.now }
{
    let x = row::owner_of(row);
    if x != 0 {
        return true;
    }
    let p = row::page_of(row);
    let k = row::number_of(row);
    let stamp = LogNo(word::load(marks, layout::STAMPS_AT + 4 * p.0, 4));
    stamp < k
}
