// S13: uncommitted rows of different owners share no byte. By S7 and S8 a row's page, bytes and owner are in range.
// The uncommitted rows are chained by page. Then, page by page, each marks its bytes with the page's first row and its owner:
// a byte that another owner marked on this page is shared. Marks of pages that begin earlier are below this page's, and stay.
ghost use Rattle.std.specs.Prelude.{◌≡◌, true, false, ◌+◌, ◌*◌, ◌≤◌, ◌<◌, [], length, get_or};
ghost use Rattle.record.specs.Rows.{keep};
ghost use Rattle.record.specs.Record.{page_of};
ghost use Rattle.rules.specs.Sound.{every, pairs, up_to, apart};
ghost use Rattle.rules.specs.Shape.{page_below};
ghost use Rattle.onlinecheck.specs.Bytes.{open_on, bounded, Chain, Linked, Passed, heads_with, after_with, free_byte, mark_bytes, free_row, with_row, free_rows, with_rows};

use super::few;
use record::row;
use record::row::OnlineRow;

// Row i goes in front of its page's chain, unless it is committed.
fn link_row(row: &OnlineRow, i: usize, heads: &mut [u16; 1024], after: &mut [u16; 512])
    requires { (i < 512) × (page_of row.now < 1024) }
    ensures { (heads.new ≡ heads_with heads.old i row.now) × (after.new ≡ after_with heads.old after.old i row.now) }
{
    let x = row::owner_of(row);
    if x == 0 {
        return;
    }
    let p = row::page_of(row);
    after[i] = heads[p.0];
    heads[p.0] = i as u16;
}

// From the last row to the first, so that a chain has its rows in table order.
#[tactic(auto, using(crate::proofs::Rows::page_at))]
fn link(online: &[OnlineRow], heads: &mut [u16; 1024], after: &mut [u16; 512])
    requires { (length online.now ≤ 512) × (every (page_below 1024) online.now ≡ true) × Linked online.now (length online.now) heads.old after.old }
    ensures { Linked online.now 0 heads.new after.new }
{
    for i in (0..online.len()).rev() {
        link_row(&online[i], i, heads, after);
    }
}

// The bytes have no mark of another owner on this page, and get this owner's.
fn take_bytes(bytes: &mut [u16], base: u16, mine: u16) -> bool
    ensures { (result ≡ up_to (free_byte base mine bytes.old) (length bytes.old) 0) × (result ≡ true → bytes.new ≡ mark_bytes mine (length bytes.old) 0 bytes.old) }
{
    for mark in bytes.iter_mut() {
        if (base < *mark) & (*mark != mine) {
            return false;
        }
        *mark = mine;
    }
    true
}

fn take_row(row: &OnlineRow, base: u16, marks: &mut [u16; 4096]) -> bool
    requires { (base ≤ 65472) × (bounded row.now ≡ true) }
    ensures { (result ≡ free_row base marks.old row.now) × (result ≡ true → marks.new ≡ with_row base marks.old row.now) }
{
    let a = row::offset_of(row);
    let w = row::length_of(row);
    let mine = base + u16::from(row::owner_of(row));
    take_bytes(&mut marks[a..a + w], base, mine)
}

// The uncommitted rows of row i's page, whose chain begins with row i. An index past the last row ends a chain.
fn chain_apart(online: &[OnlineRow], i: usize, after: &[u16; 512], marks: &mut [u16; 4096]) -> bool
    requires { (length online.now ≤ 512) × (i < length online.now) × (every bounded online.now ≡ true) × Chain online.now after.now 0 i (keep (open_on (page_of (get_or online.now i []))) online.now) }
    ensures { (result ≡ free_rows (i * 64) marks.old (keep (open_on (page_of (get_or online.now i []))) online.now)) × (result ≡ true → marks.new ≡ with_rows (i * 64) marks.old (keep (open_on (page_of (get_or online.now i []))) online.now)) }
{
    let base = (i * 64) as u16;
    let mut j = i;
    while let Some(row) = online.get(j) {
        if !take_row(row, base, marks) {
            return false;
        }
        j = usize::from(after[j]);
    }
    true
}

// A row that is alone on its page clashes with none, and its bytes need no mark: other pages look at none of this page.
// So a page is looked at where its first row is passed, if another follows.
fn row_apart(
    online: &[OnlineRow],
    i: usize,
    heads: &[u16; 1024],
    after: &[u16; 512],
    marks: &mut [u16; 4096],
) -> bool
    requires { (length online.now ≤ 512) × (i < length online.now) × (every (page_below 1024) online.now ≡ true) × (every bounded online.now ≡ true) × Linked online.now 0 heads.now after.now × Passed online.now i heads.now marks.old }
    ensures { (result ≡ true → Passed online.now (i + 1) heads.now marks.new) × (result ≡ false → pairs apart online.now ≡ false) }
{
    let next = usize::from(after[i]);
    if online.len() <= next {
        return true;
    }
    let p = row::page_of(&online[i]);
    let head = usize::from(heads[p.0]);
    if head != i {
        return true;
    }
    chain_apart(online, i, after, marks)
}

#[tactic(auto, using(crate::proofs::Bytes::pass_done))]
fn rows_apart(
    online: &[OnlineRow],
    heads: &[u16; 1024],
    after: &[u16; 512],
    marks: &mut [u16; 4096],
) -> bool
    requires { (length online.now ≤ 512) × (every (page_below 1024) online.now ≡ true) × (every bounded online.now ≡ true) × Linked online.now 0 heads.now after.now × Passed online.now 0 heads.now marks.old }
    ensures { result ≡ pairs apart online.now }
{
    for i in 0..online.len() {
        if !row_apart(online, i, heads, after, marks) {
            return false;
        }
    }
    true
}

// No row's index: a table has 512 rows at most. Chains are of indices, for there is no heap, and 2 bytes each, for the stack is small.
const NO_ROW: u16 = 512;

#[tactic(auto, using(crate::proofs::Chains::link_start))]
fn by_pages(online: &[OnlineRow]) -> bool
    requires { (length online.now ≤ 512) × (every (page_below 1024) online.now ≡ true) × (every bounded online.now ≡ true) }
    ensures { result ≡ pairs apart online.now }
{
    let mut heads = [NO_ROW; 1024];
    let mut after = [NO_ROW; 512];
    let mut marks = [0u16; 4096];
    link(online, &mut heads, &mut after);
    rows_apart(online, &heads, &after, &mut marks)
}

// All uncommitted rows are of the first one's owner.
fn one_owner(online: &[OnlineRow]) -> bool
    ensures { result ≡ true → pairs apart online.now ≡ true }
{
    let Some(i) = online.iter().position(|row| row::owner_of(row) != 0) else {
        return true;
    };
    let x = row::owner_of(&online[i]);
    online[i + 1..].iter().all(|row| {
        let y = row::owner_of(row);
        (y == 0) | (y == x)
    })
}

// The rows of one owner clash with none, so chains and marks are for two owners or more, and pay once rows are many.
pub fn all_apart(online: &[OnlineRow]) -> bool
    requires { (length online.now ≤ 512) × (every (page_below 1024) online.now ≡ true) × (every bounded online.now ≡ true) }
    ensures { result ≡ pairs apart online.now }
{
    if one_owner(online) {
        return true;
    }
    if online.len() <= 16 {
        return few::all_apart_few(online);
    }
    by_pages(online)
}
