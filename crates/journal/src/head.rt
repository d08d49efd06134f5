// Sizes, and the header's test.
ghost use Rattle.std.specs.Prelude.{◌≡◌, ◌<◌, ◌≤◌, length, take};
ghost use Rattle.journal.specs.Layout.{first_bytes, is_size, is_sector, whole_pages, same, is_header};

// What a journal begins with.
#[tactic(auto, unfolding(crate::specs::Layout::first_bytes))]
pub fn first_bytes() -> [u8; 8]
    ensures { result ≡ first_bytes }
{
    *b"\xd9\xd5\x05\xf9\x20\xa1\x63\xd7"
}

// A journal begins with them.
fn begins(journal: &[u8]) -> bool
    requires { 8 ≤ length journal.now }
    ensures { result ≡ same (take 8 journal.now) first_bytes }
{
    let first = first_bytes();
    check::same(&journal[..8], &first)
}

// A page size is one of 01's four.
#[tactic(auto, unfolding(crate::specs::Layout::is_size))]
pub fn is_size(n: u32) -> bool
    ensures { result ≡ is_size n }
{
    matches!(n, 512 | 1024 | 2048 | 4096)
}

// A sector size is a power of two, 32 to 65,536.
#[tactic(auto, unfolding(crate::specs::Layout::is_sector))]
pub fn is_sector(n: u32) -> bool
    ensures { result ≡ is_sector n }
{
    matches!(
        n,
        32 | 64 | 128 | 256 | 512 | 1024 | 2048 | 4096 | 8192 | 16384 | 32768 | 65536
    )
}

// So many bytes are 1 to 1,024 whole pages.
#[tactic(auto, unfolding(crate::specs::Layout::whole_pages))]
pub fn whole_pages(size: usize, n: usize) -> bool
    requires { 0 < size }
    ensures { result ≡ whole_pages size n }
{
    (n % size == 0) & matches!(n / size, 1..=1024)
}

// A journal begins with a header for pages of this size. What stands behind its 28 bytes is not looked at.
#[tactic(auto, unfolding(crate::specs::Layout::is_header))]
pub fn is_header(journal: &[u8], size: u32) -> bool
    ensures { result ≡ is_header size journal.now }
{
    journal.len() >= 28
        && begins(journal)
        && is_sector(word::big::load(journal, 20))
        && word::big::load(journal, 24) == size
}
