// The condition of a slot, and which calls it allows.
ghost use Rattle.std.specs.Prelude.{◌≡◌};
ghost use Rattle.stock.specs.Refusals.{answered};
ghost use Rattle.stock.specs.Conditions.{condition_number};
ghost use Rattle.stock.specs.Stocks.{put_refusal, clear_refusal, get_refusal};

use fault::stock::{StockCause, StockFault};

// The condition of a slot, numbered 0 to 3.
#[derive(Clone, Copy, PartialEq, Eq, Debug)]
pub enum Condition {
    Blank,
    Filled,
    Bad,
    NoSlot,
}

impl Condition {
    pub fn number(self) -> u8
        ensures { result ≡ condition_number self }
    {
        self as u8
    }

    // Whether a put is allowed of a slot in this condition: 6, then 7 unless the row `fits`, then 8.
    pub fn allows_put(self, slot: u64, fits: bool) -> Result<(), StockFault>
        ensures { result ≡ answered (put_refusal self slot fits) tt }
    {
        match self {
            Condition::NoSlot => Err(StockCause::NoSlot),
            _ if !fits => Err(StockCause::WrongLength),
            Condition::Bad => Err(StockCause::BadSlot),
            Condition::Blank | Condition::Filled => Ok(()),
        }
        .map_err(|cause| StockFault { cause, slot })
    }

    // Whether a clear is allowed of a slot in this condition: 6, then 8.
    pub fn allows_clear(self, slot: u64) -> Result<(), StockFault>
        ensures { result ≡ answered (clear_refusal self slot) tt }
    {
        self.allows_put(slot, true)
    }

    // Whether a get is allowed of a slot in this condition: as a put, and then 9.
    pub fn allows_get(self, slot: u64, fits: bool) -> Result<(), StockFault>
        ensures { result ≡ answered (get_refusal self slot fits) tt }
    {
        self.allows_put(slot, fits)?;
        match self {
            Condition::Blank => Err(StockFault {
                cause: StockCause::BlankSlot,
                slot,
            }),
            _ => Ok(()),
        }
    }
}
