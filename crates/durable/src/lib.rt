// Whether the parameters, the lent lengths and the durable part of the tables are sound: what restart checks, and every call but format.
// `sound_durable` takes any bytes. Each inner check asks for what the checks before it have shown.
#![tactic(auto)]

ghost use Rattle.std.specs.Prelude.{◌≡◌, ◌+◌, ◌*◌, ◌<◌, ◌≤◌, true, ◌&&◌, length, drop};
ghost use Rattle.record.specs.Rows.{rows};
ghost use Rattle.record.specs.Record.{log_width, well_formed};
ghost use Rattle.rules.specs.Areas.{areas_of};
ghost use Rattle.rules.specs.Sound.{every, up_to, zeros, is_page_size, in_range, exact_lengths, sound_durable};
ghost use Rattle.rules.specs.Lent.{marks_length};
ghost use Rattle.durable.specs.Limits.{places_of, most_values};
ghost use Rattle.durable.specs.Marks.{is_record, sound_counts, number_within, sound_stamps, dirty_from, sound_dirties, sound_marks};

use layout::read;
use number::{LogNo, PageNo};
use record::row;
use record::row::LogRow;
use rules::{Areas, Params};

// Every byte is zero, as the greatest is. The loop has no way out and keeps a byte, so that it is compiled to steps of many bytes.
#[tactic(auto, using(crate::proofs::Laws::zeros_turn, crate::proofs::Laws::zeros_done))]
pub fn all_zero(s: &[u8]) -> bool
    ensures { result ≡ zeros s.now }
{
    let mut most = 0;
    for b in s {
        most = most.max(*b);
    }
    most == 0
}

// How many offsets a change has on a page, by its length; none where that is no length.
#[tactic(auto, unfolding(crate::specs::Limits::places_of))]
pub fn places_of(size: usize) -> [usize; 9]
    ensures { result ≡ places_of size }
{
    let two = size.saturating_sub(1);
    let four = size.saturating_sub(3);
    let eight = size.saturating_sub(7);
    [0, size, two, 0, four, 0, 0, 0, eight]
}

// The greatest value by length.
#[tactic(auto, unfolding(crate::specs::Limits::most_values))]
pub fn most_values() -> [u64; 9]
    ensures { result ≡ most_values }
{
    [0, 255, 65535, 0, 4294967295, 0, 0, 0, 18446744073709551615]
}

// What bounds a record's fields on pages of one size. What depends on a record's length is looked up by it.
#[derive(Drop)]
pub struct Limits {
    pub size: usize,
    pub pages: usize,
    places: [usize; 9],
    most: [u64; 9],
    ghost placed: { places ≡ places_of size },
    ghost bounded: { most ≡ most_values },
}

impl Limits {
    pub fn new(size: usize, pages: usize) -> Self
        ensures { (result.size ≡ size) × (result.pages ≡ pages) }
    {
        Limits {
            size,
            pages,
            places: places_of(size),
            most: most_values(),
        }
    }

    // The fields of a record are in their ranges. Sound rows pass every test, so that each branch is foretold;
    // lengths differ from row to row, so that what depends on them is looked up.
    #[tactic(auto, using(crate::proofs::Laws::record_page, crate::proofs::Laws::record_long, crate::proofs::Laws::record_place, crate::proofs::Laws::record_kind, crate::proofs::Laws::record_value))]
    fn is_record(&self, page: PageNo, offset: usize, w: usize, kind: u8, v: u64) -> bool
        ensures { result ≡ is_record self.now.size self.now.pages page.0 offset w kind v }
    {
        if self.pages <= page.0 {
            return false;
        }
        if 8 < w {
            return false;
        }
        if self.places[w] <= offset {
            return false;
        }
        if 1 < kind {
            return false;
        }
        v <= self.most[w]
    }

    // The row is a record.
    #[tactic(auto, using(crate::proofs::Laws::record_fields))]
    pub fn well_formed<const W: usize>(&self, row: &[u8; W]) -> bool
        requires { log_width ≤ W }
        ensures { result ≡ well_formed self.now.size self.now.pages row.now }
    {
        let page = row::page_of(row);
        let offset = row::offset_of(row);
        let length = row::length_of(row);
        let kind = row::kind_of(row);
        let v = row::value_of(row);
        self.is_record(page, offset, length, kind, v)
    }
}

// The log's rows are records.
fn log_records(log: &[LogRow], size: usize, pages: usize) -> bool
    requires { 8 ≤ size }
    ensures { result ≡ every (well_formed size pages) log.now }
{
    let limits = Limits::new(size, pages);
    log.iter().all(|row| limits.well_formed(row))
}

// The log holds n of at most log_size records, and its first number is at most K + 1.
fn counts(last: LogNo, closed: LogNo, n: u64, log_size: u64) -> bool
    requires { (last.0 < 4294967296) × (closed.0 < 4294967296) }
    ensures { result ≡ sound_counts last.0 closed.0 n log_size }
{
    if log_size < n {
        return false;
    }
    if last.0 < n {
        return false;
    }
    last.0 - n + 1 <= closed.0 + 1
}

// The marks have two columns of a number for each page: in the one from `at` on, every number is at most `most`.
// The numbers fit 32 bits. A loop that compares each once, as such, is compiled to steps of many.
#[tactic(auto, using(crate::proofs::Laws::up_to_first, crate::proofs::Laws::up_to_next))]
fn all_at_most(marks: &[u8], at: usize, pages: usize, most: LogNo) -> bool
    requires { (at + 4 * pages ≤ length marks.now) × (most.0 < 4294967296) }
    ensures { result ≡ up_to (number_within marks.now at most.0) pages 0 }
{
    let limit = most.0 as u32;
    let mut ok = true;
    for p in 0..pages {
        ok &= word::load(marks, at + 4 * p, 4) as u32 <= limit;
    }
    ok
}

// K and every stamp are at most L.
fn stamps(marks: &[u8], pages: usize, last: LogNo, closed: LogNo) -> bool
    requires { (marks_length pages ≤ length marks.now) × (last.0 < 4294967296) }
    ensures { result ≡ sound_stamps marks.now pages last.0 closed.0 }
{
    (closed <= last) & all_at_most(marks, layout::STAMPS_AT, pages, last)
}

// S19: every dirty number is none, or from the log's first number on; `below` is the number before that.
// One test serves both, since one less than none is the greatest number of all.
#[tactic(auto, using(crate::proofs::Laws::up_to_first, crate::proofs::Laws::up_to_next, crate::proofs::Laws::below_test))]
fn none_before(marks: &[u8], pages: usize, below: LogNo) -> bool
    requires { (marks_length pages ≤ length marks.now) × (below.0 < 4294967296) }
    ensures { result ≡ up_to (dirty_from marks.now pages (below.0 + 1)) pages 0 }
{
    let limit = below.0 as u32;
    let mut ok = true;
    for p in 0..pages {
        let d = word::load(marks, layout::STAMPS_AT + 4 * pages + 4 * p, 4) as u32;
        ok &= limit <= d.wrapping_sub(1);
    }
    ok
}

// S17 and S19: a loop for each, since one that looks twice at a number takes them singly.
#[tactic(auto, using(crate::proofs::Laws::dirty_found))]
fn dirty_numbers(marks: &[u8], pages: usize, below: LogNo, closed: LogNo) -> bool
    requires { (marks_length pages ≤ length marks.now) × (below.0 < 4294967296) × (closed.0 < 4294967296) }
    ensures { result ≡ sound_dirties marks.now pages (below.0 + 1) closed.0 }
{
    all_at_most(marks, layout::STAMPS_AT + 4 * pages, pages, closed)
        & none_before(marks, pages, below)
}

// A page size is 512, 1,024, 2,048 or 4,096. By comparisons: `matches!` is compiled to counts of bits, and a refused size pays for them.
#[tactic(auto, unfolding(rules::specs::Sound::is_page_size))]
fn is_page_size(size: u64) -> bool
    ensures { result ≡ is_page_size size }
{
    (size == 512) | (size == 1024) | (size == 2048) | (size == 4096)
}

// The parameters are in their ranges.
#[tactic(auto, unfolding(rules::specs::Sound::in_range))]
pub fn in_range(g: Params) -> bool
    ensures { result ≡ in_range g }
{
    is_page_size(g.size)
        & ((1 <= g.pages) & (g.pages <= 1024))
        & ((1 <= g.frames) & (g.frames <= 64))
        & ((1 <= g.online) & (g.online <= 512))
        & ((1 <= g.log) & (g.log <= 2048))
}

// The areas beside `fixed` have the lengths of these parameters.
#[tactic(auto, using(rules::proofs::Ranges::ranged, crate::proofs::Laws::area_small), unfolding(rules::specs::Sound::exact_lengths))]
pub fn exact_lengths(lent: &Areas<'_>, g: Params) -> bool
    requires { in_range g ≡ true }
    ensures { result ≡ exact_lengths (areas_of lent.now) g }
{
    (lent.marks.len() as u64 == layout::STAMPS_AT as u64 + 8 * g.pages)
        & (lent.log.len() as u64 == record::LOG_WIDTH as u64 * g.log)
        & (lent.stored.len() as u64 == g.size * g.pages)
        & (lent.tables.len() as u64 == layout::ORDER_AT as u64 + g.frames + g.pages)
        & (lent.online.len() as u64 == record::ONLINE_WIDTH as u64 * g.online)
        & (lent.pool.len() as u64 == g.size * g.frames)
}

// The log: n rows that are records, and zeros behind them.
#[tactic(auto, using(crate::proofs::Laws::log_found))]
fn sound_log(log: &[u8], n: usize, size: usize, pages: usize) -> bool
    requires { (n * log_width ≤ length log.now) × (8 ≤ size) }
    ensures { result ≡ (every (well_formed size pages) (rows log_width n log.now 0) && zeros (drop (n * log_width) log.now)) }
{
    let end = n * record::LOG_WIDTH;
    log_records(row::first_rows(log, n), size, pages) & all_zero(&log[end..])
}

// The marks and the log, once parameters and lengths are right.
#[tactic(auto, unfolding(crate::specs::Marks::sound_marks))]
fn sound_marks(marks: &[u8], log: &[u8], size: usize, pages: usize, log_size: u64) -> bool
    requires { (length marks.now ≡ marks_length pages) × (length log.now ≡ log_width * log_size) × (8 ≤ size) }
    ensures { result ≡ sound_marks marks.now log.now size pages log_size }
{
    let last = read::last_of(marks);
    let closed = LogNo(word::load(marks, layout::CLOSED_AT, 4));
    let n = read::logged_of(marks);
    if !counts(last, closed, n as u64, log_size) {
        return false;
    }
    if !stamps(marks, pages, last, closed) {
        return false;
    }
    let below = LogNo(last.0 - n as u64);
    if !dirty_numbers(marks, pages, below, closed) {
        return false;
    }
    sound_log(log, n, size, pages)
}

// The parameters, the lengths and the durable part of any lent tables are sound.
#[tactic(auto, using(crate::proofs::Laws::durable_fixed, crate::proofs::Laws::durable_range, crate::proofs::Laws::durable_lengths, crate::proofs::Laws::durable_marks, rules::proofs::Ranges::ranged, rules::proofs::Ranges::lengths_each))]
pub fn sound_durable(lent: &Areas<'_>) -> bool
    ensures { result ≡ sound_durable (areas_of lent.now) }
{
    if lent.fixed.len() != layout::FIXED_LENGTH {
        return false;
    }
    let g = layout::params_of(lent.fixed);
    if !in_range(g) {
        return false;
    }
    if !exact_lengths(lent, g) {
        return false;
    }
    sound_marks(
        lent.marks,
        lent.log,
        g.size as usize,
        g.pages as usize,
        g.log,
    )
}
