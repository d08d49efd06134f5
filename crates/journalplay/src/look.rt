// A look at the records of a journal's first header: nothing is written.
ghost use Rattle.std.specs.Prelude.{◌≡◌, ◌+◌, ◌≤◌, length, drop};
ghost use Rattle.word.specs.Word.{big};
ghost use Rattle.journal.specs.Layout.{nonce_of};
ghost use Rattle.journal.specs.Playing.{body_of, counted, fault_of, is_outside};
ghost use Rattle.journalplay.specs.Seen.{seen};

use journal::{Fault, Refusal, Run};

// What is wrong with the record at a place.
#[tactic(auto, using(crate::proofs::Looks::fault_short, crate::proofs::Looks::fault_none, crate::proofs::Looks::fault_sum))]
fn fault_at(body: &[u8], at: usize, nonce: u32, size: usize) -> Option<Fault>
    requires { (at ≤ length body.now) × (size ≤ 4096) }
    ensures { result ≡ fault_of nonce size (drop at body.now) }
{
    if body.len() - at < size + 8 {
        return Some(Fault::CutShort);
    }
    let from = at + 4;
    let e = from + size;
    let sum = journal::sum::checksum_of(&body[from..e], nonce);
    if word::big::load(body, e) == sum {
        return None;
    }
    Some(Fault::BadSum)
}

// The record at a place names page 0, or one beyond the lent set.
#[tactic(auto, using(word::proofs::Bigs::big_at))]
fn is_outside(body: &[u8], at: usize, pages: usize) -> bool
    requires { at + 4 ≤ length body.now }
    ensures { result ≡ is_outside pages (big (drop at body.now) 0) }
{
    let number = word::big::load(body, at) as usize;
    (number == 0) | (pages < number)
}

// How far the first n records of the body go, or 30: one of them names a page outside the lent set.
#[tactic(auto, using(crate::proofs::Looks::seen_fault, crate::proofs::Looks::seen_outside, crate::proofs::Looks::ahead_turn, crate::proofs::Looks::fault_whole))]
fn look(body: &[u8], n: usize, nonce: u32, size: usize, pages: usize) -> Result<Run, Refusal>
    requires { size ≤ 4096 }
    ensures { result ≡ seen n nonce size pages body.now }
{
    // the i records before the place at are to be restored, and name lent pages
    for i in 0..n {
        let at = i * (size + 8);
        let ended = fault_at(body, at, nonce, size);
        if ended.is_some() {
            return Ok(Run { count: i, ended });
        }
        if is_outside(body, at, pages) {
            return Err(Refusal::WrongPage);
        }
    }
    Ok(Run {
        count: n,
        ended: None,
    })
}

// What stands behind the header's sector: nothing, in a journal that is shorter.
pub fn body_of(journal: &[u8]) -> &[u8]
    requires { 28 ≤ length journal.now }
    ensures { result.now ≡ body_of journal.now }
{
    let sector = word::big::load(journal, 20) as usize;
    let start = journal.len().min(sector);
    &journal[start..]
}

// The header's page count; all ones stand for as many records as the body of so many bytes holds.
#[tactic(auto, unfolding(journal::specs::Playing::counted))]
fn count_of(journal: &[u8], held: usize, size: usize) -> usize
    requires { (28 ≤ length journal.now) × (size ≤ 4096) × (held ≡ length (body_of journal.now)) }
    ensures { result ≡ counted size journal.now }
{
    let n = word::big::load(journal, 8);
    if n == 4294967295 {
        return held / (size + 8);
    }
    n as usize
}

// How far the records of the first header go, or 30.
pub fn look_all(journal: &[u8], size: usize, pages: usize) -> Result<Run, Refusal>
    requires { (28 ≤ length journal.now) × (size ≤ 4096) }
    ensures { result ≡ seen (counted size journal.now) (nonce_of journal.now) size pages (body_of journal.now) }
{
    let body = body_of(journal);
    let n = count_of(journal, body.len(), size);
    let nonce = word::big::load(journal, 12);
    look(body, n, nonce, size, pages)
}
