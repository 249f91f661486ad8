// Locked reels. Address a is slot a.
ghost use Rattle.std.specs.Prelude.{◌≡◌, ℕ, length};
ghost use Rattle.stock.specs.Refusals.{answered};
ghost use Rattle.stock.specs.Slots.{OnlySlot};
ghost use Rattle.reel.specs.Books.{Book, book_of, shape_fault, load_fault, take_fault, erase_fault, after_load, after_erase, taken};
ghost use Rattle.reel.specs.States.{locked_book};
ghost use Rattle.std.proofs.Common.{rules};

use crate::load::Loadable;
use fault::reel::{ReelCause, ReelFault};
use stock::stock::Stock;
use suite::suite::Suite;

// A reel with no keys in force: frames go in and out as they are, and no sector can be read or written.
#[derive(Drop)]
pub struct LockedReel<St: Stock, Su: Suite> {
    stock: St,
    suite: Su,
}

// The fewest and the most blocks of a frame.
const MIN_BLOCKS: usize = 2;

const MAX_BLOCKS: usize = 513;

impl<St: Stock, Su: Suite> LockedReel<St, Su> {
    pub fn new(stock: St, suite: Su) -> LockedReel<St, Su>
        ensures parts { (result.stock ≡ stock) × (result.suite ≡ suite) }
        ensures book { locked_book St.held result ≡ book_of (St.held stock) }
    {
        LockedReel { stock, suite }
    }

    // Gives the stock and the suite back.
    pub fn into_parts(self) -> (St, Su)
        ensures parts { result ≡ (self.stock, self.suite) }
        ensures book { book_of (St.held result.0) ≡ locked_book St.held self }
    {
        let LockedReel { stock, suite } = self;
        (stock, suite)
    }

    // The stock, to be asked and listed.
    pub fn stock(&self) -> &St
        ensures { result.now ≡ self.now.stock }
    {
        &self.stock
    }

    // Whether the shape allows a call: 5, then 6, then 7 unless the row or area `fits`.
    fn check_shape(&self, address: u64, fits: bool) -> Result<(), ReelFault>
        ensures { result ≡ answered (shape_fault Su.L (locked_book St.held self.now) address fits) tt }
    {
        let block = Su::L;
        let frame = self.stock.frame_len();
        let whole = frame % block == 0
            && (MIN_BLOCKS * block..=MAX_BLOCKS * block).contains(&frame);
        let cause = if !whole {
            ReelCause::NotBlocks
        } else if address >= self.stock.slots() {
            ReelCause::NoAddress
        } else if !fits {
            ReelCause::WrongArea
        } else {
            return Ok(());
        };
        Err(ReelFault { cause, address })
    }

    // Copies the frame at an address into the area. Refused by 5 to 9, and the area is then as it was.
    pub fn take(&self, address: u64, area: &mut [u8]) -> Result<(), ReelFault>
        ensures answer { result ≡ answered (take_fault Su.L (locked_book St.held self.now) address (length area.old)) tt }
        ensures area { area.new ≡ taken Su.L (locked_book St.held self.now) address area.old }
    {
        self.check_shape(address, area.len() == self.stock.frame_len())?;
        self.stock.get(address, area)?;
        Ok(())
    }

    // Puts a frame in at an address. Refused by 5 to 8, and the reel is then as it was.
    #[tactic(auto, using(crate::proofs::Calls::put_only))]
    pub fn load(&mut self, address: u64, frame: &[u8]) -> Result<(), ReelFault>
        ensures answer { result ≡ answered (load_fault Su.L (locked_book St.held self.old) address (length frame.now)) tt }
        ensures book { locked_book St.held self.new ≡ after_load Su.L (locked_book St.held self.old) address frame.now }
        ensures only { OnlySlot address (St.held self.old.stock) (St.held self.new.stock) }
        ensures suite { self.new.suite ≡ self.old.suite }
    {
        self.check_shape(address, frame.len() == self.stock.frame_len())?;
        self.stock.put(address, frame)?;
        Ok(())
    }

    // Makes an address blank. Refused by 5, 6 and 8, and the reel is then as it was.
    #[tactic(auto, using(crate::proofs::Calls::clear_only))]
    pub fn erase(&mut self, address: u64) -> Result<(), ReelFault>
        ensures answer { result ≡ answered (erase_fault Su.L (locked_book St.held self.old) address) tt }
        ensures book { locked_book St.held self.new ≡ after_erase Su.L (locked_book St.held self.old) address }
        ensures only { OnlySlot address (St.held self.old.stock) (St.held self.new.stock) }
        ensures suite { self.new.suite ≡ self.old.suite }
    {
        self.check_shape(address, true)?;
        self.stock.clear(address)?;
        Ok(())
    }
}

impl<St: Stock, Su: Suite> Loadable for LockedReel<St, Su> {
    ghost block = { Su.L };

    ghost book = { λ r. locked_book St.held r };

    ghost aside = { Su };

    ghost rest = { λ r. r.suite };

    ghost high = { Prim.search rules };

    fn frame_len(&self) -> usize {
        self.stock.frame_len()
    }

    fn load(&mut self, address: u64, frame: &[u8]) -> Result<(), ReelFault> {
        LockedReel::load(self, address, frame)
    }
}
