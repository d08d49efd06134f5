// Pages written back from records that have been looked at.
ghost use Rattle.std.specs.Prelude.{◌≡◌, false, ◌+◌, ◌*◌, ◌/◌, ◌≤◌, ◌<◌, length, drop};
ghost use Rattle.word.specs.Word.{big};
ghost use Rattle.journal.specs.Layout.{saved_of, records};
ghost use Rattle.journal.specs.Playing.{outside, with_saved, restored};

// The page of the record at a place.
#[tactic(auto, using(word::proofs::Bigs::big_at, crate::proofs::Restores::spot, crate::proofs::Restores::written_one))]
fn restore_one(body: &[u8], at: usize, size: usize, pages: &mut [u8])
    requires { (at + (size + 8) ≤ length body.now) × (1 ≤ big (drop at body.now) 0) × (big (drop at body.now) 0 * size ≤ length pages.old) }
    ensures { pages.new ≡ with_saved size (saved_of size (drop at body.now)) pages.old }
{
    let number = word::big::load(body, at) as usize;
    let to = (number - 1) * size;
    let e = to + size;
    let from = at + 4;
    let f = from + size;
    fill::copy(&mut pages[to..e], &body[from..f]);
}

// The pages of the first k records, in their order.
pub fn restore(body: &[u8], k: usize, size: usize, pages: &mut [u8])
    requires { (0 < size) × (k * (size + 8) ≤ length body.now) × (outside (length pages.old / size) (records k size body.now) ≡ false) }
    ensures { pages.new ≡ restored size (records k size body.now) pages.old }
{
    for i in 0..k {
        let at = i * (size + 8);
        restore_one(body, at, size, pages);
    }
}
