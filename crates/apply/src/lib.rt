// What a record does to a page, in place: one change, one row of a table, and a page's rows in table order.
// Any page is taken: a change that does not fit it leaves it as it is.
#![tactic(auto)]

ghost use Rattle.std.specs.Prelude.{◌≡◌, ◌+◌, ◌-◌, ◌*◌, ◌%◌, ◌^◌, ◌≤◌, ◌&&◌, length, if◌then◌else◌, nat_eq, nat_le};
ghost use Rattle.record.specs.Rows.{keep};
ghost use Rattle.record.specs.Record.{log_width, change, apply, applied, chosen};

use number::PageNo;
use record::row;
use record::row::OnlineRow;

// A page of n bytes has room for a change of w bytes at an offset, and a number has so many bytes.
fn has_room(n: usize, offset: usize, w: usize) -> bool
    ensures { result ≡ (nat_le (offset + w) n && nat_le w 8) }
{
    w <= 8 && w <= n && offset <= n - w
}

// What is written over the number old, of which only the lowest bytes count: an add may wrap at eight bytes.
fn written(kind: u8, old: u64, v: u64) -> u64
    ensures { result ≡ (if nat_eq kind 1 then (old + v) % 2 ^ 64 else v) }
{
    if kind == 1 { old.wrapping_add(v) } else { v }
}

// The page g with a change of w bytes at an offset; one that does not fit changes nothing.
#[tactic(auto, using(crate::proofs::Laws::change_room, crate::proofs::Laws::change_none, record::proofs::Changes::room_both))]
pub fn write_change(g: &mut [u8], offset: usize, w: usize, kind: u8, v: u64)
    ensures { g.new ≡ change offset w kind v g.old }
{
    if !has_room(g.len(), offset, w) {
        return;
    }
    let old = word::load(g, offset, w);
    word::store(g, offset, w, written(kind, old, v));
}

// The page g with a row's record applied.
#[tactic(auto, unfolding(record::specs::Record::apply))]
pub fn apply_row<const W: usize>(row: &[u8; W], g: &mut [u8])
    requires { log_width ≤ W }
    ensures { g.new ≡ apply row.now g.old }
{
    let offset = row::offset_of(row);
    let length = row::length_of(row);
    write_change(g, offset, length, row::kind_of(row), row::value_of(row));
}

// The row is of the page p and, where only committed ones count, it is committed.
fn is_chosen(row: &OnlineRow, p: PageNo, only: bool) -> bool
    ensures { result ≡ chosen only p.0 row.now }
{
    if row::page_of(row) != p {
        return false;
    }
    if only {
        return row::owner_of(row) == 0;
    }
    true
}

// The page g with the chosen ones of the online rows applied in table order.
pub fn fold(online: &[OnlineRow], p: PageNo, only: bool, g: &mut [u8])
    ensures { g.new ≡ applied (keep (chosen only p.0) online.now) g.old }
{
    for row in online {
        if is_chosen(row, p, only) {
            apply_row(row, g);
        }
    }
}
