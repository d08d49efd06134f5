// A journal played back, exported: the call of crate journalplay of the same name, and its promise.
#![tactic(auto)]

ghost use Rattle.journal.specs.Calls.{Told, play_call};

use journal::Reply;

#[unsafe(no_mangle)]
pub extern "C" fn ventarico_journal_play(journal: &[u8], pages: &mut [u8], page_size: u32) -> Reply
    ensures { Told (play_call journal.now pages.old page_size) result pages.new }
{
    journalplay::ventarico_journal_play(journal, pages, page_size)
}
