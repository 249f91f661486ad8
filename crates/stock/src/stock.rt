// What a stock is. An implementation says what it holds by `held`, and every call is told by that alone.
ghost use Rattle.std.specs.Prelude.{◌≡◌, ℕ, ◌≤◌, length};
ghost use Rattle.stock.specs.Refusals.{answered};
ghost use Rattle.stock.specs.Slots.{Contents, AllFramed};
ghost use Rattle.stock.specs.Stocks.{condition_at, put_fault, clear_fault, get_fault, after_put, after_clear, got};

use crate::condition::Condition;
use fault::stock::StockFault;

// A place where frames are kept: a frame length and a row of slots, each bad, blank or filled with one frame.
// A refused call alters nothing, neither the stock nor an area that was handed over.
pub trait Stock {
    // what the stock holds: its frame length F and its slots, S of them
    ghost held: { Self → Contents };

    // F, in bytes.
    fn frame_len(&self) -> usize
        ensures { result ≡ (held self.now).frame };

    // S.
    fn slots(&self) -> u64
        ensures { result ≡ length (held self.now).slots };

    fn condition(&self, slot: u64) -> Condition
        ensures { result ≡ condition_at (held self.now) slot };

    // Fills a slot with the bytes given. Refused by 6 to 8.
    fn put(&mut self, slot: u64, bytes: &[u8]) -> Result<(), StockFault>
        ensures answer { result ≡ answered (put_fault (held self.old) slot (length bytes.now)) tt }
        ensures held { held self.new ≡ after_put (held self.old) slot bytes.now };

    // Makes a slot blank. Refused by 6 and 8.
    fn clear(&mut self, slot: u64) -> Result<(), StockFault>
        ensures answer { result ≡ answered (clear_fault (held self.old) slot) tt }
        ensures held { held self.new ≡ after_clear (held self.old) slot };

    // Copies a slot's frame into the area. Refused by 6 to 9.
    fn get(&self, slot: u64, area: &mut [u8]) -> Result<(), StockFault>
        ensures answer { result ≡ answered (get_fault (held self.now) slot (length area.old)) tt }
        ensures area { area.new ≡ got (held self.now) slot area.old };

    ghost framed: { (s : Self) → AllFramed (held s) };

    ghost low: { (s : Self) → 16 ≤ (held s).frame };

    ghost high: { (s : Self) → (held s).frame ≤ 8208 };

    ghost few: { (s : Self) → length (held s).slots ≤ 65536 };
}
