// S12: an entry is dirty exactly if a row is of its page. By S7 the rows' pages are in the store.
ghost use Rattle.std.specs.Prelude.{◌≡◌, ℕ, true, false, get_or, ◌+◌, ◌≤◌, ◌<◌, length};
ghost use Rattle.record.specs.Part.{part};
ghost use Rattle.rules.specs.Sound.{every, up_to};
ghost use Rattle.rules.specs.Lent.{order_at};
ghost use Rattle.rules.specs.Shape.{page_below};
ghost use Rattle.onlinecheck.specs.Online.{entry_agrees};
ghost use Rattle.onlinecheck.specs.Marks.{entry_marked, marked_or_on};

use record::row;
use record::row::OnlineRow;

// A mark at each row's page.
#[tactic(auto, using(crate::proofs::Rows::page_at, crate::proofs::Marks::pages_turn, crate::proofs::Marks::pages_done))]
fn mark_pages(online: &[OnlineRow], marks: &mut [bool; 1024])
    requires { every (page_below 1024) online.now ≡ true }
    ensures { (p : ℕ) → p < 1024 → get_or marks.new p false ≡ marked_or_on marks.old online.now p }
{
    for row in online {
        let p = row::page_of(row);
        marks[p.0] = true;
    }
}

// Goes through all entries: one is clean or dirty as it comes, and a branch on it would be foretold badly.
fn all_marked(entries: &[u8], marks: &[bool; 1024]) -> bool
    requires { length entries.now ≤ 1024 }
    ensures { result ≡ up_to (entry_marked entries.now marks.now) (length entries.now) 0 }
{
    let mut ok = true;
    for (e, has) in entries.iter().zip(marks.iter()) {
        ok &= (*e % 2 == 1) == *has;
    }
    ok
}

pub fn all_agree(online: &[OnlineRow], tables: &[u8], pages: usize, frames: usize) -> bool
    requires { (length tables.now ≡ order_at + frames + pages) × (pages ≤ 1024) × (every (page_below pages) online.now ≡ true) }
    ensures { result ≡ up_to (entry_agrees (part (order_at + frames) pages tables.now) online.now) pages 0 }
{
    let mut marks = [false; 1024];
    mark_pages(online, &mut marks);
    let at = layout::ORDER_AT + frames;
    all_marked(&tables[at..at + pages], &marks)
}
