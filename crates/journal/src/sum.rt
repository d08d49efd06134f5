// A page's checksum.
ghost use Rattle.std.specs.Prelude.{◌≡◌, length};
ghost use Rattle.journal.specs.Layout.{checksum};

// The nonce and every 200th byte from the page's end, at places above 0, by remainder.
pub fn checksum_of(page: &[u8], nonce: u32) -> u32
    ensures { result ≡ checksum nonce (length page.now) page.now }
{
    let mut sum = nonce;
    let mut at = page.len();
    // the places from at on are summed
    while 200 < at {
        at -= 200;
        sum = sum.wrapping_add(u32::from(page[at]));
    }
    sum
}
