// S9: no nonzero number occurs twice. By S8 and S10 a nonzero number is one of the log's.
ghost use Rattle.std.specs.Prelude.{◌≡◌, true};
ghost use Rattle.rules.specs.Sound.{every, pairs};
ghost use Rattle.onlinecheck.specs.Online.{other_number};
ghost use Rattle.onlinecheck.specs.Marks.{slotted, unmarked, with_number, all_unmarked};

use number::LogNo;
use record::row;
use record::row::OnlineRow;

// The row's number is not marked yet, and is marked from now on.
fn take_number(row: &OnlineRow, first: LogNo, marks: &mut [bool; 2048]) -> bool
    requires { slotted first.0 row.now ≡ true }
    ensures { (result ≡ unmarked first.0 marks.old row.now) × (marks.new ≡ with_number first.0 marks.old row.now) }
{
    let k = row::number_of(row);
    if k.0 == 0 {
        return true;
    }
    let at = (k.0 - first.0) as usize;
    let was = marks[at];
    marks[at] = true;
    !was
}

#[tactic(auto, using(crate::proofs::Rows::every_at, crate::proofs::Marks::free_fail, crate::proofs::Marks::free_done))]
fn all_free(online: &[OnlineRow], first: LogNo, marks: &mut [bool; 2048]) -> bool
    requires { every (slotted first.0) online.now ≡ true }
    ensures { result ≡ all_unmarked first.0 online.now marks.old }
{
    for row in online {
        if !take_number(row, first, marks) {
            return false;
        }
    }
    true
}

#[tactic(auto, using(crate::proofs::Marks::free_once))]
pub fn all_once(online: &[OnlineRow], first: LogNo) -> bool
    requires { every (slotted first.0) online.now ≡ true }
    ensures { result ≡ pairs other_number online.now }
{
    let mut marks = [false; 2048];
    all_free(online, first, &mut marks)
}
