// Each call is judged before anything changes: the refusals of document 01 that follow soundness, in their order.
// Nothing is written here, and each function is lent only what its refusals look at.
#![tactic(auto)]

ghost use Rattle.std.specs.Prelude.{◌≡◌, ◌+◌, ◌*◌, ◌^◌, ◌≤◌, ◌<◌, true, ◌&&◌, length, leb, ltb};
ghost use Rattle.record.specs.Rows.{row_at, rows};
ghost use Rattle.record.specs.Record.{online_width, is_length};
ghost use Rattle.rules.specs.Sound.{between};
ghost use Rattle.rules.specs.Lent.{order_at};
ghost use Rattle.rules.specs.Calls.{clashes, held_to_read, is_number, is_live, verdict_of, begin_refusals, read_refusals, update_refusals, abort_refusals, evict_refusals, commit_refusals, compact_refusals, checkpoint_refusals};

use record::row;
use record::row::OnlineRow;
use rules::{Bad, Refusal, Verdict};

// A transaction number is 1 to 32.
pub fn is_number(x: u32) -> bool
    ensures { result ≡ is_number x }
{
    (1 <= x) & (x <= 32)
}

// Number x is live.
pub fn is_live(tables: &[u8], x: u32) -> bool
    requires { (x ≤ 32) × (order_at ≤ length tables.now) }
    ensures { result ≡ is_live tables.now x }
{
    let at = layout::LIVE_AT + x as usize;
    tables[at] == 1
}

#[tactic(auto, unfolding(rules::specs::Calls::begin_refusals, rules::specs::Calls::verdict_of, rules::specs::Calls::refuse_if))]
pub fn may_begin(tables: &[u8], x: u32) -> Verdict
    requires { order_at ≤ length tables.now }
    ensures { result ≡ verdict_of (begin_refusals (is_live tables.now) x) }
{
    if !is_number(x) {
        return Err(Refusal::Argument(Bad::Number));
    }
    if is_live(tables, x) {
        return Err(Refusal::Live);
    }
    Ok(())
}

#[tactic(auto, unfolding(rules::specs::Calls::abort_refusals, rules::specs::Calls::verdict_of, rules::specs::Calls::refuse_if))]
pub fn may_abort(tables: &[u8], x: u32) -> Verdict
    requires { order_at ≤ length tables.now }
    ensures { result ≡ verdict_of (abort_refusals (is_live tables.now) x) }
{
    if !is_number(x) {
        return Err(Refusal::Argument(Bad::Number));
    }
    if !is_live(tables, x) {
        return Err(Refusal::NotLive);
    }
    Ok(())
}

#[tactic(auto, unfolding(rules::specs::Calls::commit_refusals, rules::specs::Calls::verdict_of, rules::specs::Calls::refuse_if))]
pub fn may_commit(span: usize, n: usize, last: u64, tables: &[u8], k: usize, x: u32) -> Verdict
    requires { (order_at ≤ length tables.now) × (n ≤ 2048) × (k ≤ 512) × (last < 4294967296) }
    ensures { result ≡ verdict_of (commit_refusals span n last (is_live tables.now) k x) }
{
    if !is_number(x) {
        return Err(Refusal::Argument(Bad::Number));
    }
    if !is_live(tables, x) {
        return Err(Refusal::NotLive);
    }
    if span < n + k {
        return Err(Refusal::LogFull);
    }
    if 4294967295 < last + k as u64 {
        return Err(Refusal::NumbersEnd);
    }
    Ok(())
}

#[tactic(auto, unfolding(rules::specs::Calls::evict_refusals, rules::specs::Calls::verdict_of, rules::specs::Calls::refuse_if))]
pub fn may_evict(pages: usize, entry: u8, p: u32) -> Verdict
    ensures { result ≡ verdict_of (evict_refusals pages entry p) }
{
    if pages <= p as usize {
        return Err(Refusal::Argument(Bad::Page));
    }
    if entry / 2 == 0 {
        return Err(Refusal::NoFrame);
    }
    Ok(())
}

fn are_parameters(min_del: u32, max_age: u32) -> bool
    ensures { result ≡ (leb 1 min_del && leb min_del 512 && leb max_age 4294967295) }
{
    (1 <= min_del) & (min_del <= 512) & (max_age <= 4294967295)
}

#[tactic(auto, unfolding(rules::specs::Calls::compact_refusals, rules::specs::Calls::verdict_of, rules::specs::Calls::refuse_if))]
pub fn may_compact(pages: usize, p: u32, min_del: u32, max_age: u32) -> Verdict
    ensures { result ≡ verdict_of (compact_refusals pages p min_del max_age) }
{
    if pages <= p as usize {
        return Err(Refusal::Argument(Bad::Page));
    }
    if !are_parameters(min_del, max_age) {
        return Err(Refusal::Argument(Bad::Parameter));
    }
    Ok(())
}

#[tactic(auto, unfolding(rules::specs::Calls::checkpoint_refusals, rules::specs::Calls::verdict_of, rules::specs::Calls::refuse_if))]
pub fn may_checkpoint(min_del: u32, max_age: u32) -> Verdict
    ensures { result ≡ verdict_of (checkpoint_refusals min_del max_age) }
{
    if !are_parameters(min_del, max_age) {
        return Err(Refusal::Argument(Bad::Parameter));
    }
    Ok(())
}

// The row is another live owner's, and has a byte of those asked for.
fn clashes_row(row: &OnlineRow, x: u32, p: u32, offset: u32, w: u32) -> bool
    ensures { result ≡ clashes x p offset w row.now }
{
    let owner = u32::from(row::owner_of(row));
    let page = row::page_of(row);
    let from = row::offset_of(row);
    let to = from + row::length_of(row);
    let at = offset as usize;
    (owner != 0) & (owner != x) & ((page.0 == p as usize) & (from < at + w as usize) & (at < to))
}

// A byte asked for is in another live owner's record.
fn is_held(online: &[OnlineRow], x: u32, p: u32, offset: u32, w: u32) -> bool
    ensures { result ≡ held_to_read online.now x p offset w }
{
    online.iter().any(|row| clashes_row(row, x, p, offset, w))
}

// A record's length is 1, 2, 4 or 8.
#[tactic(auto, unfolding(record::specs::Record::is_length))]
fn is_length(w: u32) -> bool
    ensures { result ≡ is_length w }
{
    matches!(w, 1 | 2 | 4 | 8)
}

// A value of w bytes is below 256 to that power; asked of record lengths alone.
#[tactic(auto, using(crate::proofs::Laws::eight_value))]
fn is_value(v: u64, w: u32) -> bool
    requires { is_length w ≡ true }
    ensures { result ≡ ltb v (256 ^ w) }
{
    match w {
        1 => v < 256,
        2 => v < 65536,
        4 => v < 4294967296,
        _ => true,
    }
}

#[tactic(auto, unfolding(rules::specs::Calls::read_refusals, rules::specs::Calls::verdict_of, rules::specs::Calls::refuse_if))]
pub fn may_read(
    size: usize,
    pages: usize,
    tables: &[u8],
    online: &[OnlineRow],
    room: usize,
    x: u32,
    p: u32,
    offset: u32,
    w: u32,
) -> Verdict
    requires { order_at ≤ length tables.now }
    ensures { result ≡ verdict_of (read_refusals size pages (is_live tables.now) online.now room x p offset w) }
{
    if pages <= p as usize {
        return Err(Refusal::Argument(Bad::Page));
    }
    if !is_number(x) {
        return Err(Refusal::Argument(Bad::Number));
    }
    if !is_between(w, size) {
        return Err(Refusal::Argument(Bad::Length));
    }
    if size < offset as usize + w as usize {
        return Err(Refusal::Argument(Bad::Place));
    }
    let short = room < w as usize;
    if short {
        return Err(Refusal::ShortBuffer);
    }
    if !is_live(tables, x) {
        return Err(Refusal::NotLive);
    }
    if is_held(online, x, p, offset, w) {
        return Err(Refusal::Held);
    }
    Ok(())
}

// A read's length is 1 to the page size.
fn is_between(w: u32, size: usize) -> bool
    ensures { result ≡ between 1 w size }
{
    (1 <= w) & (w as usize <= size)
}

#[tactic(auto, unfolding(rules::specs::Calls::update_refusals, rules::specs::Calls::verdict_of, rules::specs::Calls::refuse_if))]
pub fn may_update(
    size: usize,
    pages: usize,
    room: usize,
    tables: &[u8],
    online: &[OnlineRow],
    x: u32,
    p: u32,
    offset: u32,
    w: u32,
    kind: u32,
    v: u64,
) -> Verdict
    requires { (order_at ≤ length tables.now) × (size ≤ 4096) × (pages ≤ 1024) }
    ensures { result ≡ verdict_of (update_refusals size pages room (length online.now) (is_live tables.now) online.now x p offset w kind v) }
{
    if pages <= p as usize {
        return Err(Refusal::Argument(Bad::Page));
    }
    if !is_number(x) {
        return Err(Refusal::Argument(Bad::Number));
    }
    if !is_length(w) {
        return Err(Refusal::Argument(Bad::Length));
    }
    if size < offset as usize + w as usize {
        return Err(Refusal::Argument(Bad::Place));
    }
    if !is_value(v, w) {
        return Err(Refusal::Argument(Bad::Value));
    }
    if 1 < kind {
        return Err(Refusal::Argument(Bad::Kind));
    }
    if !is_live(tables, x) {
        return Err(Refusal::NotLive);
    }
    if is_held(online, x, p, offset, w) {
        return Err(Refusal::Held);
    }
    if room < online.len() + 1 {
        return Err(Refusal::OnlineFull);
    }
    Ok(())
}
