// The use order by value: a call that changes it takes self and hands the changed order back.
#![tactic(auto)]

ghost use Rattle.std.specs.Prelude.{◌≡◌, false, ◌++◌, ℕ, ◌≤◌, ◌<◌, length, get_or, take, replicate};
ghost use Rattle.order.specs.Order.{named, without, touched, victim, frame_for};

use number::FrameNo;
use std::marker::Model;

// The frames in use, the least recently used first: the first `used` slots. The others are zero, so that the list of the frames
// says all of an order, and an order can be copied.
// One slot more than there can be frames, so that a touch always has room.
#[derive(Clone, Copy)]
pub struct Order {
    slots: [u8; 65],
    used: usize,
}

// Clauses see the frames in use.
impl Model for Order {
    ghost use Rattle.std.specs.Prelude.{◌≡◌, List, ℕ, ◌++◌, ◌-◌, ◌≤◌, length, take, drop, replicate};
    ghost use Rattle.std.proofs.Common.{ap, sym, ◌∙◌, take-append-drop, length-take-le};

    ghost Value = { List ℕ };

    ghost view = { λ o. take o.used o.slots };

    ghost invariant = { λ o. (length o.slots ≡ 65) × (o.used ≤ length o.slots) × (drop o.used o.slots ≡ replicate (65 - o.used) 0) };

    ghost inverse = { λ l. record { slots = l ++ replicate (65 - length l) 0; used = length l } };

    ghost inverse_ok = { λ o h i. record {
      slots = (ap (λ n. take o.used o.slots ++ replicate (65 - n) 0) (length-take-le o.used o.slots h.1) ∙ ap (λ l. take o.used o.slots ++ l) (sym h.2) ∙ take-append-drop o.used o.slots) i;
      used = length-take-le o.used o.slots h.1 i;
    } };
}

// The order that the first `used` bytes of a table hold.
pub fn load(t: &[u8], used: usize) -> Order
    requires { (used ≤ 64) × (used ≤ length t.now) }
    ensures { result ≡ take used t.now }
{
    let mut slots = [0u8; 65];
    fill::copy(&mut slots[..used], &t[..used]);
    Order { slots, used }
}

impl Order {
    // How many frames are in use.
    pub fn len(&self) -> usize
        ensures { (result ≡ length self.now) × (result ≤ 65) }
    {
        self.used
    }

    // The frame at a place, 0 past the end.
    pub fn at(&self, i: usize) -> u8
        ensures { result ≡ get_or self.now i 0 }
    {
        if i < self.used { self.slots[i] } else { 0 }
    }

    // The frame leaves the order.
    #[tactic(auto, unfolding(crate::specs::Order::without))]
    pub fn free(self, f: FrameNo) -> Order
        ensures { (result ≡ without f.0 self) × (length result ≤ length self) }
    {
        let mut slots = [0u8; 65];
        let mut kept: usize = 0;
        // every slot is written; only another frame's stays
        for g in &self.slots[..self.used] {
            slots[kept] = *g;
            kept += usize::from(usize::from(*g) != f.0);
        }
        if kept < 65 {
            slots[kept] = 0;
        }
        Order { slots, used: kept }
    }

    // The frame becomes the latest used.
    pub fn touch(self, f: FrameNo) -> Order
        requires { (length self ≤ 64) × (f.0 < 256) }
        ensures { result ≡ touched f.0 self }
    {
        let mut next = self.free(f);
        next.slots[next.used] = f.0 as u8;
        next.used += 1;
        next
    }

    // The frame to give up: the least recently used.
    #[tactic(auto, unfolding(crate::specs::Order::victim))]
    pub fn victim(&self) -> FrameNo
        ensures { (result.0 ≡ victim self.now) × (result.0 < 256) }
    {
        FrameNo(usize::from(self.at(0)))
    }

    // Which frames are in use.
    #[tactic(auto, using(crate::proofs::Laws::marks_none))]
    fn marks(&self) -> [bool; 256]
        ensures { (f : ℕ) → f < 256 → get_or result f false ≡ named f self.now }
    {
        let mut marks = [false; 256];
        for g in &self.slots[..self.used] {
            marks[usize::from(*g)] = true;
        }
        marks
    }

    // The lowest free frame, or the victim if there is none.
    #[tactic(auto, using(crate::proofs::Laws::frame_start, crate::proofs::Laws::frame_turn, crate::proofs::Laws::frame_found, crate::proofs::Laws::frame_none))]
    pub fn frame_for(&self, frames: usize) -> FrameNo
        requires { frames ≤ 64 }
        ensures { (result.0 ≡ frame_for frames self.now) × (result.0 < 256) }
    {
        let marks = self.marks();
        for f in 0..frames {
            if !marks[f] {
                return FrameNo(f);
            }
        }
        self.victim()
    }

    // Writes the order to a table, and zeros past it.
    #[tactic(auto, using(crate::proofs::Laws::save_turn))]
    pub fn save(&self, t: &mut [u8])
        ensures { t.new ≡ take (length t.old) (self.now ++ replicate (length t.old) 0) }
    {
        for i in 0..t.len() {
            t[i] = self.at(i);
        }
    }
}
