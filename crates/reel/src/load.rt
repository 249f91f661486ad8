// What takes frames at addresses, whatever its state: loading a listing needs no more of it.
ghost use Rattle.std.specs.Prelude.{◌≡◌, ℕ, ◌≤◌, length};
ghost use Rattle.stock.specs.Refusals.{answered};
ghost use Rattle.reel.specs.Books.{Book, load_fault, after_load};

use fault::reel::ReelFault;

// A reel, locked or not, as a loading sees it.
pub trait Loadable {
    // the block length of the suite
    ghost block: { ℕ };

    ghost book: { Self → Book };

    // whatever else it has: a load does not touch that
    ghost aside: { Type 0 };

    ghost rest: { Self → aside };

    fn frame_len(&self) -> usize
        ensures { result ≡ (book self.now).held.frame };

    // Puts a frame in at an address.
    fn load(&mut self, address: u64, frame: &[u8]) -> Result<(), ReelFault>
        ensures answer { result ≡ answered (load_fault block (book self.old) address (length frame.now)) tt }
        ensures book { book self.new ≡ after_load block (book self.old) address frame.now }
        ensures rest { rest self.new ≡ rest self.old };

    ghost high: { (s : Self) → (book s).held.frame ≤ 8208 };
}
