// A rollback journal played back over lent pages: all records are looked at first, and only then is a page written.
// The door asks nothing of its caller.
#![tactic(auto)]

mod look;
mod restore;

ghost use Rattle.std.specs.Prelude.{◌≡◌};
ghost use Rattle.journal.specs.Calls.{judge_play, play_call, Told};

use journal::{Refusal, Reply, Run};

// The call judged: 26, 27, 29, 30, or how far the records go. Everything is lent for reading.
#[tactic(auto, using(crate::proofs::Judges::judged_26, crate::proofs::Judges::judged_27, crate::proofs::Judges::judged_29, crate::proofs::Judges::judged_seen, journal::proofs::Tells::size_range, journal::proofs::Laws::header_tells))]
fn judge(journal: &[u8], lent: usize, page_size: u32) -> Result<Run, Refusal>
    ensures { result ≡ judge_play journal.now lent page_size }
{
    if !journal::head::is_size(page_size) {
        return Err(Refusal::BadParameter);
    }
    let size = page_size as usize;
    if !journal::head::whole_pages(size, lent) {
        return Err(Refusal::BadLength);
    }
    if !journal::head::is_header(journal, page_size) {
        return Err(Refusal::BadHeader);
    }
    look::look_all(journal, size, lent / size)
}

pub fn ventarico_journal_play(journal: &[u8], pages: &mut [u8], page_size: u32) -> Reply
    ensures { Told (play_call journal.now pages.old page_size) result pages.new }
{
    match judge(journal, pages.len(), page_size) {
        Ok(run) => {
            restore::restore(look::body_of(journal), run.count, page_size as usize, pages);
            Reply::from(run)
        }
        Err(refusal) => Reply::from(refusal),
    }
}
