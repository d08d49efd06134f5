// A header, and a record, at their place in the target.
ghost use Rattle.std.specs.Prelude.{◌≡◌, ◌++◌, ◌+◌, ◌≤◌, length, drop};
ghost use Rattle.record.specs.Part.{with_part};
ghost use Rattle.word.specs.Word.{bytes_of};
ghost use Rattle.journal.specs.Layout.{first_bytes, header_bytes, record_bytes};

// What a journal begins with.
#[tactic(auto, using(crate::proofs::Fills::firsts, crate::proofs::Fills::firsts_fit))]
fn put_first(target: &mut [u8])
    requires { 8 ≤ length target.old }
    ensures { target.new ≡ first_bytes ++ drop 8 target.old }
{
    let first = journal::head::first_bytes();
    fill::copy(&mut target[..8], &first);
}

// The header's 28 bytes.
fn put_fields(target: &mut [u8], count: u32, nonce: u32, pages: u32, sector: u32, size: u32)
    requires { 28 ≤ length target.old }
    ensures { target.new ≡ (first_bytes ++ (bytes_of count ++ (bytes_of nonce ++ (bytes_of pages ++ (bytes_of sector ++ bytes_of size))))) ++ drop 28 target.old }
{
    put_first(target);
    word::big::store(target, 8, count);
    word::big::store(target, 12, nonce);
    word::big::store(target, 16, pages);
    word::big::store(target, 20, sector);
    word::big::store(target, 24, size);
}

// The header, and zeros up to the sector's end.
pub fn put_header(target: &mut [u8], count: u32, nonce: u32, pages: u32, sector: u32, size: u32)
    requires { (28 ≤ sector) × (sector ≤ length target.old) }
    ensures { target.new ≡ header_bytes count nonce pages sector size ++ drop sector target.old }
{
    put_fields(target, count, nonce, pages, sector, size);
    let e = sector as usize;
    target[28..e].fill(0);
}

// The record of a page at a place.
#[tactic(auto, using(crate::proofs::Fills::record_put))]
pub fn put_record(target: &mut [u8], at: usize, number: u32, page: &[u8], nonce: u32)
    requires { at + (length page.now + 8) ≤ length target.old }
    ensures { target.new ≡ with_part at (length page.now + 8) target.old (record_bytes nonce (length page.now) (record { number = number; image = page.now })) }
{
    word::big::store(target, at, number);
    let from = at + 4;
    let e = from + page.len();
    fill::copy(&mut target[from..e], page);
    word::big::store(target, e, journal::sum::checksum_of(page, nonce));
}
