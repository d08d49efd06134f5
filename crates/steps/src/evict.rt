// Evict: the page's frame is freed, and nothing is written.
ghost use Rattle.std.specs.Prelude.{◌≡◌, true, ◌+◌, ◌%◌, ◌≤◌, ◌<◌, length, get_or, set};
ghost use Rattle.record.specs.Part.{part};
ghost use Rattle.order.specs.Order.{without};
ghost use Rattle.rules.specs.Lent.{order_at, used_in, pages_of, entry_at, entry_of, in_frame, frame_of, with_order};
ghost use Rattle.rules.specs.Areas.{areas};
ghost use Rattle.rules.specs.Shape.{Shaped};
ghost use Rattle.rules.specs.Steps.{evicted};

use number::{FrameNo, PageNo};

// The page's frame leaves the order, and its entry keeps what is dirty of it.
fn vacate(tables: &mut [u8], frames: usize, p: PageNo)
    requires { (order_at + frames + p.0 < length tables.old) × (used_in tables.old ≤ frames) × (frames ≤ 64) × (in_frame (get_or tables.old (entry_at frames p.0) 0) ≡ true) }
    ensures { tables.new ≡ with_order frames (without (frame_of (get_or tables.old (entry_at frames p.0) 0)) (part order_at (used_in tables.old) tables.old)) (set tables.old (entry_at frames p.0) (get_or tables.old (entry_at frames p.0) 0 % 2)) }
{
    let order = frames::load_order(tables, frames);
    let at = layout::ORDER_AT + frames + p.0;
    let e = tables[at];
    tables[at] = e % 2;
    let f = usize::from(e / 2) - 1;
    frames::save_order(tables, frames, &order.free(FrameNo(f)));
}

pub fn evict(
    fixed: &[u8],
    marks: &[u8],
    log: &[u8],
    stored: &[u8],
    tables: &mut [u8],
    online: &[u8],
    pool: &[u8],
    p: PageNo,
)
    requires { Shaped (areas fixed.now marks.now log.now stored.now tables.old online.now pool.now) × (p.0 < pages_of (areas fixed.now marks.now log.now stored.now tables.old online.now pool.now)) × (in_frame (entry_of (areas fixed.now marks.now log.now stored.now tables.old online.now pool.now) p.0) ≡ true) }
    ensures { areas fixed.now marks.now log.now stored.now tables.new online.now pool.now ≡ (evicted (areas fixed.now marks.now log.now stored.now tables.old online.now pool.now) p.0).lent }
{
    let given = layout::params_of(fixed);
    vacate(tables, given.frames as usize, p);
}
