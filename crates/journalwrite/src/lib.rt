// A rollback journal written for a list of pages: judged first, then header and records to the front of the target.
// The door asks nothing of its caller.
#![tactic(auto)]

mod list;
mod put;

ghost use Rattle.std.specs.Prelude.{◌≡◌};
ghost use Rattle.journal.specs.Calls.{judge_write, write_call, Told};

use journal::{Refusal, Reply, Run};

// The call judged: 20, 26, 27, 14, 15, or none of them. Nothing is written.
#[tactic(auto, using(crate::proofs::Lists::judged_20, crate::proofs::Lists::judged_26, crate::proofs::Lists::judged_27, crate::proofs::Lists::judged_14, crate::proofs::Lists::judged_15, crate::proofs::Lists::judged_go, crate::proofs::Lists::sizes))]
fn judge(list: &[u32], lent: usize, room: usize, page_size: u32, sector: u32) -> Result<(), Refusal>
    ensures { result ≡ judge_write list.now lent room page_size sector }
{
    if list::any_past(list, lent, page_size) {
        return Err(Refusal::BadPage);
    }
    let n = list.len();
    if !(journal::head::is_size(page_size) & journal::head::is_sector(sector) & (n <= 4294967294)) {
        return Err(Refusal::BadParameter);
    }
    let size = page_size as usize;
    if !journal::head::whole_pages(size, lent) {
        return Err(Refusal::BadLength);
    }
    if room < sector as usize + n * (size + 8) {
        return Err(Refusal::ShortTarget);
    }
    if n == 0 {
        return Err(Refusal::EmptyList);
    }
    Ok(())
}

pub fn ventarico_journal_write(
    pages: &[u8],
    list: &[u32],
    target: &mut [u8],
    page_size: u32,
    nonce: u32,
    sector: u32,
) -> Reply
    ensures { Told (write_call pages.now list.now target.old page_size nonce sector) result target.new }
{
    match judge(list, pages.len(), target.len(), page_size, sector) {
        Ok(()) => {
            list::write_all(pages, list, target, page_size, nonce, sector);
            Reply::from(Run {
                count: list.len(),
                ended: None,
            })
        }
        Err(refusal) => Reply::from(refusal),
    }
}
