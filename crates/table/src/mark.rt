// Marks of pages: a byte a page, 1 where a row of a kind is of the page.
ghost use Rattle.std.specs.Prelude.{◌≡◌, Bool, ℕ, List, ◌*◌, ◌≤◌, ◌<◌, length, set};
ghost use Rattle.record.specs.Rows.{rows, keep};
ghost use Rattle.record.specs.Record.{online_width, owner_of};
ghost use Rattle.table.specs.Marks.{mark_pages};

use record::row;
use record::row::OnlineRow;

// Sets a byte of a list, and nothing past its end.
pub fn set_byte(t: &mut [u8], i: usize, v: u8)
    ensures { t.new ≡ set t.old i v }
{
    if i < t.len() {
        t[i] = v;
    }
}

// A mark at the page of each row whose owner is taken. A page past the marks has none.
pub fn mark_pages<F: Fn(u8) -> bool>(marks: &mut [u8], online: &[OnlineRow], takes: F)
    requires takes { F.IsAlwaysCallable takes }
    ensures { (b : ℕ → Bool) → ((o : ℕ) → (r : Bool) → o < 256 → F.post takes o r → r ≡ b o) → marks.new ≡ mark_pages (keep (λ (x : List ℕ). b (owner_of x)) online.now) marks.old }
{
    for row in online {
        if takes(row::owner_of(row)) {
            set_byte(marks, row::page_of(row).0, 1);
        }
    }
}
