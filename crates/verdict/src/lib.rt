// Each call judged whole: soundness first, then the call's own refusals in their order. Everything is lent to be read.
// These ask nothing of their caller; `Ok` is what a door waits for.
#![tactic(auto)]

ghost use Rattle.std.specs.Prelude.{◌≡◌, [], ◌∷◌, OnOk, true, ◌&&◌, ◌≤◌, length, get_or, eqb};
ghost use Rattle.rules.specs.Sound.{in_range, exact_lengths};
ghost use Rattle.rules.specs.Lent.{fixed_length, entry_at};
ghost use Rattle.rules.specs.Shape.{Shaped};
ghost use Rattle.rules.specs.Areas.{areas_of};
ghost use Rattle.rules.specs.Calls.{unsound, verdict_of, judge_begin, judge_read, judge_update, judge_commit, judge_abort, judge_evict, judge_compact, judge_close, judge_checkpoint, judge_restart, judge_format};

use layout::read;
use record::row;
use rules::{Areas, Bad, Params, Refusal, Verdict};

// "Checked first by every call except format."
#[tactic(auto, unfolding(rules::specs::Calls::verdict_of, rules::specs::Calls::refuse_if))]
fn check_sound(lent: &Areas<'_>) -> Verdict
    ensures first { result ≡ verdict_of (unsound (areas_of lent.now) ∷ []) }
    ensures shaped { OnOk result (Shaped (areas_of lent.now)) }
{
    if !sound::is_sound(lent) {
        return Err(Refusal::NotSound);
    }
    Ok(())
}

#[tactic(auto, using(crate::proofs::Laws::checked_err, crate::proofs::Laws::checked_ok), unfolding(rules::specs::Calls::judge_begin))]
pub fn judge_begin(lent: &Areas<'_>, x: u32) -> Verdict
    ensures { result ≡ judge_begin (areas_of lent.now) x }
{
    check_sound(lent)?;
    judge::may_begin(lent.tables, x)
}

#[tactic(auto, using(crate::proofs::Laws::checked_err, crate::proofs::Laws::checked_ok), unfolding(rules::specs::Calls::judge_abort))]
pub fn judge_abort(lent: &Areas<'_>, x: u32) -> Verdict
    ensures { result ≡ judge_abort (areas_of lent.now) x }
{
    check_sound(lent)?;
    judge::may_abort(lent.tables, x)
}

#[tactic(auto, unfolding(rules::specs::Calls::judge_close))]
pub fn judge_close(lent: &Areas<'_>) -> Verdict
    ensures { result ≡ judge_close (areas_of lent.now) }
{
    check_sound(lent)
}

#[tactic(auto, using(crate::proofs::Laws::checked_err, crate::proofs::Laws::checked_ok), unfolding(rules::specs::Calls::judge_checkpoint))]
pub fn judge_checkpoint(lent: &Areas<'_>, min_del: u32, max_age: u32) -> Verdict
    ensures { result ≡ judge_checkpoint (areas_of lent.now) min_del max_age }
{
    check_sound(lent)?;
    judge::may_checkpoint(min_del, max_age)
}

#[tactic(auto, using(crate::proofs::Laws::checked_err, crate::proofs::Laws::checked_ok), unfolding(rules::specs::Calls::judge_compact))]
pub fn judge_compact(lent: &Areas<'_>, p: u32, min_del: u32, max_age: u32) -> Verdict
    ensures { result ≡ judge_compact (areas_of lent.now) p min_del max_age }
{
    check_sound(lent)?;
    let given = layout::params_of(lent.fixed);
    judge::may_compact(given.pages as usize, p, min_del, max_age)
}

#[tactic(auto, using(crate::proofs::Laws::checked_err, crate::proofs::Laws::checked_ok), unfolding(rules::specs::Calls::judge_evict))]
pub fn judge_evict(lent: &Areas<'_>, p: u32) -> Verdict
    ensures { result ≡ judge_evict (areas_of lent.now) p }
{
    check_sound(lent)?;
    let given = layout::params_of(lent.fixed);
    let entry = entry_of(lent.tables, given.frames as usize, p);
    judge::may_evict(given.pages as usize, entry, p)
}

#[tactic(auto, using(crate::proofs::Laws::checked_err, crate::proofs::Laws::checked_ok), unfolding(rules::specs::Calls::judge_read))]
pub fn judge_read(lent: &Areas<'_>, room: usize, x: u32, p: u32, offset: u32, w: u32) -> Verdict
    ensures { result ≡ judge_read (areas_of lent.now) room x p offset w }
{
    check_sound(lent)?;
    let given = layout::params_of(lent.fixed);
    let online = row::first_rows::<{ record::ONLINE_WIDTH }>(
        lent.online,
        read::count_of(lent.tables),
    );
    judge::may_read(
        given.size as usize,
        given.pages as usize,
        lent.tables,
        online,
        room,
        x,
        p,
        offset,
        w,
    )
}

#[tactic(auto, using(crate::proofs::Laws::checked_err, crate::proofs::Laws::checked_ok, record::proofs::Rows::length_rows), unfolding(rules::specs::Calls::judge_update))]
pub fn judge_update(
    lent: &Areas<'_>,
    x: u32,
    p: u32,
    offset: u32,
    w: u32,
    kind: u32,
    v: u64,
) -> Verdict
    ensures { result ≡ judge_update (areas_of lent.now) x p offset w kind v }
{
    check_sound(lent)?;
    let given = layout::params_of(lent.fixed);
    let online = row::first_rows::<{ record::ONLINE_WIDTH }>(
        lent.online,
        read::count_of(lent.tables),
    );
    judge::may_update(
        given.size as usize,
        given.pages as usize,
        given.online as usize,
        lent.tables,
        online,
        x,
        p,
        offset,
        w,
        kind,
        v,
    )
}

#[tactic(auto, using(crate::proofs::Laws::checked_err, crate::proofs::Laws::checked_ok, record::proofs::Rows::length_rows), unfolding(rules::specs::Calls::judge_commit))]
pub fn judge_commit(lent: &Areas<'_>, x: u32) -> Verdict
    ensures { result ≡ judge_commit (areas_of lent.now) x }
{
    check_sound(lent)?;
    let given = layout::params_of(lent.fixed);
    let n = read::logged_of(lent.marks);
    let last = read::last_of(lent.marks);
    if 32 < x {
        return Err(Refusal::Argument(Bad::Number));
    }
    let online = row::first_rows::<{ record::ONLINE_WIDTH }>(
        lent.online,
        read::count_of(lent.tables),
    );
    let k = table::count_owned(online, x as u8);
    judge::may_commit(given.log as usize, n, last.0, lent.tables, k, x)
}

#[tactic(auto, unfolding(rules::specs::Calls::judge_restart, rules::specs::Calls::verdict_of, rules::specs::Calls::refuse_if))]
pub fn judge_restart(lent: &Areas<'_>) -> Verdict
    ensures { result ≡ judge_restart (areas_of lent.now) }
{
    if !durable::sound_durable(lent) {
        return Err(Refusal::NotSound);
    }
    let given = layout::params_of(lent.fixed);
    let k = restart::count_entering(lent);
    if (given.online as usize) < k {
        return Err(Refusal::OnlineFull);
    }
    Ok(())
}

#[tactic(auto, unfolding(rules::specs::Calls::judge_format, rules::specs::Calls::verdict_of, rules::specs::Calls::refuse_if))]
pub fn judge_format(lent: &Areas<'_>, g: Params, last: u32) -> Verdict
    ensures { result ≡ judge_format (areas_of lent.now) g last }
{
    // every number of 32 bits is in L's range
    if !durable::in_range(g) {
        return Err(Refusal::Argument(Bad::Parameter));
    }
    if !lengths(lent, g) {
        return Err(Refusal::Argument(Bad::Lent));
    }
    Ok(())
}

// The entry of a page; 0 where there is no such page.
fn entry_of(tables: &[u8], frames: usize, p: u32) -> u8
    requires { frames ≤ 64 }
    ensures { result ≡ get_or tables.now (entry_at frames p) 0 }
{
    let at = layout::ORDER_AT + frames + p as usize;
    tables.get(at).copied().unwrap_or(0)
}

// Format's lent lengths.
fn lengths(lent: &Areas<'_>, g: Params) -> bool
    requires { in_range g ≡ true }
    ensures { result ≡ (eqb (length lent.now.fixed.now) fixed_length && exact_lengths (areas_of lent.now) g) }
{
    if lent.fixed.len() != layout::FIXED_LENGTH {
        return false;
    }
    durable::exact_lengths(lent, g)
}
