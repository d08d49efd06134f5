// The check of the `tables` area: counts, live set, page entries, use order. One pass over each part.
#![tactic(auto)]

ghost use Rattle.std.specs.Prelude.{◌≡◌, true, false, ◌&&◌, ℕ, ◌+◌, ◌-◌, ◌/◌, ◌≤◌, ◌<◌, length, get_or, eqb, leb, ltb};
ghost use Rattle.record.specs.Part.{part};
ghost use Rattle.rules.specs.Sound.{every, up_to, zeros, serving, times};
ghost use Rattle.rules.specs.Lent.{order_at, used_in, count_in};
ghost use Rattle.pagetable.specs.Test.{tables_test};
ghost use Rattle.pagetable.specs.Tally.{Tallied};

// Every byte is below the end. No exit from the loop, so that many bytes are compared at a time.
#[tactic(auto, using(crate::proofs::Loops::every_first, crate::proofs::Loops::every_next))]
fn all_below(s: &[u8], end: u8) -> bool
    ensures { result ≡ every (λ (b : ℕ). ltb b end) s.now }
{
    let mut ok = true;
    for b in s {
        ok &= *b < end;
    }
    ok
}

// How many bytes of s have each key from LEAST on. A byte's key is its SHARE-th part: of the order's bytes the frame that each names,
// of the entries the half, which is a frame number and one. The half 0 is no frame's and mostly the commonest: counted, its slot would be stored and loaded at each.
fn tally<const SHARE: u8, const LEAST: usize>(s: &[u8]) -> [u16; 256]
    requires { (0 < SHARE) × (length s.now ≤ 1024) }
    ensures { Tallied SHARE LEAST s.now result }
{
    let mut a = [0; 256];
    for b in s {
        let k = usize::from(*b / SHARE);
        if LEAST <= k {
            a[k] += 1;
        }
    }
    a
}

// No frame is counted twice.
fn each_once(served: &[u16; 256], frames: usize) -> bool
    requires { frames ≤ 64 }
    ensures { result ≡ up_to (λ (f : ℕ). leb (get_or served.now (f + 1) 0) 1) frames 0 }
{
    (0..frames).all(|f| served[f + 1] <= 1)
}

// Each frame is named as often as it serves.
fn each_named(named: &[u16; 256], served: &[u16; 256], frames: usize) -> bool
    requires { frames ≤ 64 }
    ensures { result ≡ up_to (λ (f : ℕ). eqb (get_or named.now f 0) (get_or served.now (f + 1) 0)) frames 0 }
{
    (0..frames).all(|f| named[f] == served[f + 1])
}

// No frame serves two pages, and the order names each that serves as often as it serves.
fn frames_agree(entries: &[u8], order: &[u8], frames: usize) -> bool
    requires { (length entries.now ≤ 1024) × (length order.now ≤ 64) × (frames ≤ 64) }
    ensures { result ≡ (up_to (λ (f : ℕ). leb (serving f entries.now) 1) frames 0 && up_to (λ (f : ℕ). eqb (times f order.now) (serving f entries.now)) frames 0) }
{
    let served = tally::<2, 1>(entries);
    let named = tally::<1, 0>(order);
    each_once(&served, frames) & each_named(&named, &served, frames)
}

fn counts_within(tables: &[u8], frames: usize, room: usize) -> bool
    requires { 3 ≤ length tables.now }
    ensures { result ≡ (leb (count_in tables.now) room && leb (used_in tables.now) frames) }
{
    let m = layout::read::count_of(tables);
    let u = usize::from(tables[layout::USED_AT]);
    (m <= room) & (u <= frames)
}

// The live set, one byte a transaction.
#[tactic(auto, using(crate::proofs::Loops::below_part, crate::proofs::Loops::at_most_one))]
fn live_marked(tables: &[u8]) -> bool
    requires { order_at ≤ length tables.now }
    ensures { result ≡ every (λ (b : ℕ). leb b 1) (part 3 32 tables.now) }
{
    all_below(&tables[layout::LIVES_AT..layout::ORDER_AT], 2)
}

// No entry names a frame that is not there.
#[tactic(auto, using(crate::proofs::Loops::below_part, crate::proofs::Loops::half_within))]
fn entries_within(tables: &[u8], pages: usize, frames: usize) -> bool
    requires { (length tables.now ≡ order_at + frames + pages) × (frames ≤ 64) }
    ensures { result ≡ every (λ (e : ℕ). leb (e / 2) frames) (part (order_at + frames) pages tables.now) }
{
    let a = layout::ORDER_AT + frames;
    all_below(&tables[a..], (2 * frames + 2) as u8)
}

// Neither does a place of the order.
#[tactic(auto, using(crate::proofs::Loops::below_part))]
fn order_within(tables: &[u8], frames: usize, u: usize) -> bool
    requires { (order_at + u ≤ length tables.now) × (u ≤ frames) × (frames ≤ 64) }
    ensures { result ≡ every (λ (f : ℕ). ltb f frames) (part order_at u tables.now) }
{
    let e = layout::ORDER_AT + u;
    all_below(&tables[layout::ORDER_AT..e], frames as u8)
}

// The places that are not in use are zero.
#[tactic(auto, using(crate::proofs::Loops::zeros_part))]
fn tail_clear(tables: &[u8], frames: usize, u: usize) -> bool
    requires { (order_at + frames ≤ length tables.now) × (u ≤ frames) × (frames ≤ 64) }
    ensures { result ≡ zeros (part (order_at + u) (frames - u) tables.now) }
{
    let a = layout::ORDER_AT + u;
    let e = layout::ORDER_AT + frames;
    all_below(&tables[a..e], 1)
}

// No frame serves two pages, and the order names each that serves as often as it serves.
fn frames_served(tables: &[u8], pages: usize, frames: usize, u: usize) -> bool
    requires { (length tables.now ≡ order_at + frames + pages) × (pages ≤ 1024) × (frames ≤ 64) × (u ≤ frames) }
    ensures { result ≡ (up_to (λ (f : ℕ). leb (serving f (part (order_at + frames) pages tables.now)) 1) frames 0 && up_to (λ (f : ℕ). eqb (times f (part order_at u tables.now)) (serving f (part (order_at + frames) pages tables.now))) frames 0) }
{
    let e = layout::ORDER_AT + u;
    let a = layout::ORDER_AT + frames;
    frames_agree(&tables[a..], &tables[layout::ORDER_AT..e], frames)
}

// The `tables` area is sound, as far as it alone decides that.
#[tactic(auto, using(crate::proofs::Laws::test_refused, crate::proofs::Laws::used_fits, crate::proofs::Laws::test_same))]
pub fn sound_tables(tables: &[u8], pages: usize, frames: usize, room: usize) -> bool
    requires { (length tables.now ≡ order_at + frames + pages) × (pages ≤ 1024) × (frames ≤ 64) }
    ensures { result ≡ tables_test tables.now pages frames room }
{
    if !counts_within(tables, frames, room) {
        return false;
    }
    let u = usize::from(tables[layout::USED_AT]);
    let marked = live_marked(tables);
    let entries = entries_within(tables, pages, frames);
    let order = order_within(tables, frames, u);
    let tail = tail_clear(tables, frames, u);
    marked & entries & order & tail & frames_served(tables, pages, frames, u)
}
