// Begin: the clerk makes the number live.
ghost use Rattle.std.specs.Prelude.{◌≡◌, true, false, ◌≤◌, length, set};
ghost use Rattle.record.specs.Part.{part, with_part};
ghost use Rattle.rules.specs.Lent.{order_at, stamps_at, last_in, live_at};
ghost use Rattle.rules.specs.Areas.{areas};
ghost use Rattle.rules.specs.Shape.{Shaped};
ghost use Rattle.rules.specs.Steps.{begun};
ghost use Rattle.rules.specs.Calls.{is_number, is_live};

use clerk::Clerk;
use layout::read;

// The clerk's state as it stands in the lent tables.
fn clerk_of(marks: &[u8], tables: &[u8]) -> Clerk
    requires { (stamps_at ≤ length marks.now) × (order_at ≤ length tables.now) }
    ensures { (result.live ≡ part 3 32 tables.now) × (result.last ≡ last_in marks.now) }
{
    let mut live = [0u8; 32];
    fill::copy(&mut live, &tables[layout::LIVES_AT..layout::ORDER_AT]);
    let last = read::last_of(marks).0 as u32;
    Clerk { live, last }
}

// The clerk's live set back into the tables.
fn save_live(tables: &mut [u8], c: Clerk)
    requires { order_at ≤ length tables.old }
    ensures { tables.new ≡ with_part 3 32 tables.old c.live }
{
    let live = c.live;
    fill::copy(&mut tables[layout::LIVES_AT..layout::ORDER_AT], &live);
}

// The number becomes live, through the clerk.
fn make_live(marks: &[u8], tables: &mut [u8], x: u32)
    requires { (stamps_at ≤ length marks.now) × (order_at ≤ length tables.old) × (is_number x ≡ true) × (is_live tables.old x ≡ false) }
    ensures { tables.new ≡ set tables.old (live_at x) 1 }
{
    let c = clerk_of(marks, tables);
    let after = c.begin(x).unwrap();
    save_live(tables, after);
}

pub fn begin(
    fixed: &[u8],
    marks: &[u8],
    log: &[u8],
    stored: &[u8],
    tables: &mut [u8],
    online: &[u8],
    pool: &[u8],
    x: u32,
)
    requires { Shaped (areas fixed.now marks.now log.now stored.now tables.old online.now pool.now) × (is_number x ≡ true) × (is_live tables.old x ≡ false) }
    ensures { areas fixed.now marks.now log.now stored.now tables.new online.now pool.now ≡ (begun (areas fixed.now marks.now log.now stored.now tables.old online.now pool.now) x).lent }
{
    make_live(marks, tables, x);
}
