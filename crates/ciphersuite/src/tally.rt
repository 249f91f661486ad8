// How often a suite was asked for products and for squares.
ghost use Rattle.std.specs.Prelude.{◌≡◌};
ghost use Rattle.ciphersuite.specs.Tallies.{none_asked, raised, tallied};

// Two tallies that run modulo 2^64, for a suite to keep.
#[derive(Clone, Copy)]
pub struct Tally {
    pub products: u64,
    pub squarings: u64,
}

impl Tally {
    // Nothing was asked for yet.
    pub fn new() -> Tally
        ensures { tallied result ≡ none_asked }
    {
        Tally {
            products: 0,
            squarings: 0,
        }
    }

    pub fn count_product(&mut self)
        ensures { tallied self.new ≡ raised 1 0 (tallied self.old) }
    {
        self.products = self.products.wrapping_add(1);
    }

    pub fn count_squaring(&mut self)
        ensures { tallied self.new ≡ raised 0 1 (tallied self.old) }
    {
        self.squarings = self.squarings.wrapping_add(1);
    }
}
