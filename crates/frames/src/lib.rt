// Frames and page entries: a page is rebuilt in its frame, a frame is freed and taken.
// The use order comes out of the tables and goes back into them as a value.
#![tactic(auto)]

ghost use Rattle.std.specs.Prelude.{◌≡◌, true, false, cond, map, ◌+◌, ◌*◌, ◌≤◌, ◌<◌, length, MatchOption};
ghost use Rattle.record.specs.Part.{part};
ghost use Rattle.record.specs.Rows.{keep};
ghost use Rattle.record.specs.Record.{on_page, applied};
ghost use Rattle.rules.specs.Lent.{order_at, used_in, in_frame, frame_of, page_in, with_order};
ghost use Rattle.rules.specs.Steps.{freed, placed};
ghost use Rattle.frames.specs.Freed.{order_without};

use number::{FrameNo, PageNo};
use order::Order;
use record::row::OnlineRow;

// The stored page, with its online records applied in table order where it was evicted.
pub fn rebuild(
    g: &mut [u8],
    stored: &[u8],
    size: usize,
    p: PageNo,
    online: &[OnlineRow],
    evicted: bool,
)
    requires { (length g.old ≡ size) × (p.0 * size + size ≤ length stored.now) }
    ensures { g.new ≡ cond evicted (applied (keep (on_page p.0) online.now) (page_in size p.0 stored.now)) (page_in size p.0 stored.now) }
{
    let a = p.0 * size;
    let e = a + size;
    fill::copy(g, &stored[a..e]);
    if !evicted {
        return;
    }
    apply::fold(online, p, false, g);
}

// An entry after frame f was freed: clean becomes absent, dirty becomes evicted.
fn freed_entry(f: FrameNo, e: u8) -> u8
    requires { f.0 < 64 }
    ensures { result ≡ freed f.0 e }
{
    if frame_of(e) == Some(f) { e % 2 } else { e }
}

// The frame that an entry names, if it names one.
pub fn frame_of(e: u8) -> Option<FrameNo>
    ensures { MatchOption result (in_frame e ≡ false) (λ f. (in_frame e ≡ true) × (f.0 ≡ frame_of e) × (f.0 < 256)) }
{
    match e / 2 {
        0 => None,
        half => Some(FrameNo(usize::from(half) - 1)),
    }
}

// The use order without the frame, if one is freed.
pub fn freed_order(frees: Option<FrameNo>, order: Order) -> Order
    ensures { result ≡ order_without frees order }
{
    match frees {
        Some(f) => order.free(f),
        None => order,
    }
}

// Frees frame f, whichever page it serves.
pub fn vacate(entries: &mut [u8], f: FrameNo)
    requires { f.0 < 64 }
    ensures { entries.new ≡ map (freed f.0) entries.old }
{
    for e in entries.iter_mut() {
        *e = freed_entry(f, *e);
    }
}

// Page p goes into frame f, which serves no other page any more.
#[tactic(auto, using(crate::proofs::Laws::place_set))]
pub fn place(entries: &mut [u8], f: FrameNo, p: PageNo)
    requires { (f.0 < 64) × (p.0 < length entries.old) }
    ensures { entries.new ≡ placed f.0 p.0 entries.old }
{
    let at = p.0;
    let was = entries[at] % 2;
    vacate(entries, f);
    entries[at] = (2 * (f.0 + 1)) as u8 + was;
}

// The use order that the tables hold.
pub fn load_order(tables: &[u8], frames: usize) -> Order
    requires { (order_at + frames ≤ length tables.now) × (used_in tables.now ≤ frames) × (frames ≤ 64) }
    ensures { (result ≡ part order_at (used_in tables.now) tables.now) × (length result ≤ 64) }
{
    let e = layout::ORDER_AT + frames;
    order::load(
        &tables[layout::ORDER_AT..e],
        usize::from(tables[layout::USED_AT]),
    )
}

// The tables with another use order.
pub fn save_order(tables: &mut [u8], frames: usize, order: &Order)
    requires { (order_at + frames ≤ length tables.old) × (frames ≤ 64) }
    ensures { tables.new ≡ with_order frames order.now tables.old }
{
    let e = layout::ORDER_AT + frames;
    order.save(&mut tables[layout::ORDER_AT..e]);
    tables[layout::USED_AT] = order.len() as u8;
}
