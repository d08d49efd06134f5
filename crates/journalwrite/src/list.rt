// The pages of a list: whether they are all lent, and their records one after another.
ghost use Rattle.std.specs.Prelude.{◌≡◌, false, ◌++◌, map, ◌+◌, ◌*◌, ◌/◌, ◌≤◌, ◌<◌, length, take, drop};
ghost use Rattle.record.specs.Part.{with_part};
ghost use Rattle.journal.specs.Layout.{record_bytes, records_bytes};
ghost use Rattle.journal.specs.Writing.{any_past, saved_page, journal_length, journal_bytes};
ghost use Rattle.journal.specs.Calls.{judge_write};

// Where a page ends.
#[tactic(auto, using(crate::proofs::Lists::end_fits))]
fn page_end(p: u32, size: u32) -> usize
    ensures { result ≡ (p + 1) * size }
{
    (p as usize + 1) * size as usize
}

// A listed page lies past the lent bytes.
pub fn any_past(list: &[u32], lent: usize, size: u32) -> bool
    ensures { result ≡ any_past lent size list.now }
{
    list.iter().any(|p| lent < page_end(*p, size))
}

// The record of page p at a place.
#[tactic(auto, using(crate::proofs::Lists::page_put))]
fn put_page(target: &mut [u8], at: usize, pages: &[u8], p: u32, size: usize, nonce: u32)
    requires { (at + (size + 8) ≤ length target.old) × (p < 1024) × (size ≤ 4096) × ((p + 1) * size ≤ length pages.now) }
    ensures { target.new ≡ with_part at (size + 8) target.old (record_bytes nonce size (saved_page size pages.now p)) }
{
    let from = p as usize * size;
    let e = from + size;
    crate::put::put_record(target, at, p + 1, &pages[from..e], nonce);
}

// The records of the pages listed, from a place on.
fn put_records(target: &mut [u8], start: usize, pages: &[u8], list: &[u32], size: usize, nonce: u32)
    requires { (journal_length start size (length list.now) ≤ length target.old) × (512 ≤ size) × (size ≤ 4096) × (length pages.now / size ≤ 1024) × (any_past (length pages.now) size list.now ≡ false) }
    ensures { target.new ≡ (take start target.old ++ records_bytes nonce size (map (saved_page size pages.now) list.now)) ++ drop (journal_length start size (length list.now)) target.old }
{
    // i records are written, and the next goes to the place at
    for (i, p) in list.iter().enumerate() {
        let at = start + i * (size + 8);
        put_page(target, at, pages, *p, size, nonce);
    }
}

// The whole journal.
pub fn write_all(
    pages: &[u8],
    list: &[u32],
    target: &mut [u8],
    page_size: u32,
    nonce: u32,
    sector: u32,
)
    requires { judge_write list.now (length pages.now) (length target.old) page_size sector ≡ Ok tt }
    ensures { target.new ≡ journal_bytes pages.now list.now page_size nonce sector ++ drop (journal_length sector page_size (length list.now)) target.old }
{
    let size = page_size as usize;
    let count = list.len() as u32;
    let held = (pages.len() / size) as u32;
    crate::put::put_header(target, count, nonce, held, sector, page_size);
    put_records(target, sector as usize, pages, list, size, nonce);
}
