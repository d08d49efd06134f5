// A journal written, exported: the call of crate journalwrite of the same name, and its promise.
#![tactic(auto)]

ghost use Rattle.journal.specs.Calls.{Told, write_call};

use journal::Reply;

#[unsafe(no_mangle)]
pub extern "C" fn ventarico_journal_write(
    pages: &[u8],
    list: &[u32],
    target: &mut [u8],
    page_size: u32,
    nonce: u32,
    sector: u32,
) -> Reply
    ensures { Told (write_call pages.now list.now target.old page_size nonce sector) result target.new }
{
    journalwrite::ventarico_journal_write(pages, list, target, page_size, nonce, sector)
}
