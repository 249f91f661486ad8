// Making a flat stock, its calls, and giving the area back.
ghost use Rattle.std.specs.Prelude.{◌≡◌, ℕ, ◌+◌, ◌*◌, ◌<◌, ◌≤◌, length};
ghost use Rattle.stock.specs.Refusals.{answered};
ghost use Rattle.stock.specs.BadLists.{bad_list};
ghost use Rattle.stock.specs.Stocks.{put_fault, clear_fault, after_put, after_clear, fresh_contents};
ghost use Rattle.flat.specs.Flats.{flat_count, mark_at, body_at, Unmarked};
ghost use Rattle.flat.specs.FlatHeld.{flat_over, flat_held, area_after_put, area_after_clear};
ghost use Rattle.flat.specs.FlatArea.{slots_framed, slots_few};
ghost use Rattle.std.proofs.Common.{rules};

use crate::flat::FlatStock;
use crate::mark::{clear_marks, clear_slot, condition_of, fill_slot};
use fault::stock::StockFault;
use std::ops::Range;
use stock::bad::BadSlots;
use stock::condition::Condition;
use stock::size::FrameSize;
use stock::stock::Stock;

// The most slots that a stock has.
const MOST_SLOTS: usize = 65536;

impl FlatStock {
    // The stock over an area as it is; nothing is written.
    pub fn over(area: Vec<u8>, size: FrameSize, bad: BadSlots) -> FlatStock
        ensures held { flat_held result ≡ flat_over size bad area.items }
        ensures area { result.area ≡ area }
        ensures parts { (result.size ≡ size) × (result.bad ≡ bad) }
    {
        let room = area.len() / (size.get() + 1);
        let slots = room.min(MOST_SLOTS);
        FlatStock {
            area,
            size,
            slots,
            bad,
        }
    }

    // The stock over the area with all marks set to 0: each slot is blank, or bad if listed.
    pub fn fresh(area: Vec<u8>, size: FrameSize, bad: BadSlots) -> FlatStock
        ensures held { flat_held result ≡ fresh_contents size.bytes (flat_count size.bytes (length area.items)) (bad_list bad) }
        ensures area { Unmarked size.bytes (flat_count size.bytes (length area.items)) area.items result.area.items }
        ensures parts { (result.size ≡ size) × (result.bad ≡ bad) }
    {
        let mut stock = FlatStock::over(area, size, bad);
        let slots = stock.slots;
        clear_marks(stock.area.as_mut_slice(), size, slots);
        stock
    }

    // Gives the area back. A stock made over it with the same frame size and list holds the same again.
    pub fn into_area(self) -> Vec<u8>
        ensures area { result ≡ self.area }
        ensures again { flat_over self.size self.bad result.items ≡ flat_held self }
    {
        let FlatStock { area, .. } = self;
        area
    }

    // Where the bytes of a slot lie in the area.
    fn place(&self, slot: u64) -> Range<usize>
        requires { slot < self.now.slots }
        ensures start { result.start ≡ slot * (self.now.size.bytes + 1) }
        ensures end { result.end ≡ result.start + (self.now.size.bytes + 1) }
        ensures within { result.end ≤ length self.now.area.items }
    {
        let len = self.size.get() + 1;
        let start = slot as usize * len;
        start..start + len
    }

    // The mark of a slot.
    fn mark(&self, slot: u64) -> u8
        requires { slot < self.now.slots }
        ensures { result ≡ mark_at self.now.size.bytes self.now.area.items slot }
    {
        self.area[self.place(slot).start]
    }

    // The bytes of a slot behind its mark.
    fn frame(&self, slot: u64) -> &[u8]
        requires { slot < self.now.slots }
        ensures bytes { result.now ≡ body_at self.now.size.bytes self.now.area.items slot }
        ensures len { length result.now ≡ self.now.size.bytes }
    {
        let place = self.place(slot);
        &self.area[place.start + 1..place.end]
    }
}

impl Stock for FlatStock {
    ghost held = { flat_held };

    ghost framed = { λ s. slots_framed _ _ _ };

    ghost low = { Prim.search rules };

    ghost high = { Prim.search rules };

    ghost few = { λ s. slots_few _ _ _ };

    fn frame_len(&self) -> usize {
        self.size.get()
    }

    fn slots(&self) -> u64 {
        self.slots as u64
    }

    fn condition(&self, slot: u64) -> Condition {
        if slot >= self.slots as u64 {
            return Condition::NoSlot;
        }
        condition_of(self.bad.has(slot), self.mark(slot))
    }

    fn put(&mut self, slot: u64, bytes: &[u8]) -> Result<(), StockFault>
        ensures answer { result ≡ answered (put_fault (flat_held self.old) slot (length bytes.now)) tt }
        ensures held { flat_held self.new ≡ after_put (flat_held self.old) slot bytes.now }
        ensures area { self.new.area.items ≡ area_after_put self.old slot bytes.now }
    {
        self.condition(slot)
            .allows_put(slot, bytes.len() == self.size.get())?;
        let place = self.place(slot);
        fill_slot(&mut self.area[place], bytes);
        Ok(())
    }

    fn clear(&mut self, slot: u64) -> Result<(), StockFault>
        ensures answer { result ≡ answered (clear_fault (flat_held self.old) slot) tt }
        ensures held { flat_held self.new ≡ after_clear (flat_held self.old) slot }
        ensures area { self.new.area.items ≡ area_after_clear self.old slot }
    {
        self.condition(slot).allows_clear(slot)?;
        let place = self.place(slot);
        clear_slot(&mut self.area[place]);
        Ok(())
    }

    fn get(&self, slot: u64, area: &mut [u8]) -> Result<(), StockFault> {
        self.condition(slot)
            .allows_get(slot, area.len() == self.size.get())?;
        area.copy_from_slice(self.frame(slot));
        Ok(())
    }
}
