// The judging of logs, exported: each call is that of crate waljudge of the same name, and promises what that promises.
#![tactic(auto)]

ghost use Rattle.std.specs.Prelude.{◌≡◌};
ghost use Rattle.waljudge.specs.Judge.{found_in, judged};

use waljudge::{Found, Judged};

// Judges a whole file: header at 0, frames behind it.
#[unsafe(no_mangle)]
pub extern "C" fn ventarico_wal_judge(file: &[u8]) -> Judged
    ensures { result ≡ judged file.now }
{
    waljudge::ventarico_wal_judge(file)
}

// Where the last image of a page (from 1) begins, frames behind the last commit frame left out.
#[unsafe(no_mangle)]
pub extern "C" fn ventarico_wal_find(file: &[u8], page: u32) -> Found
    ensures { result ≡ found_in file.now page }
{
    waljudge::ventarico_wal_find(file, page)
}
