// Making a list of bad slots, and asking it.
ghost use Rattle.std.specs.Prelude.{◌≡◌, [], position, is_none};
ghost use Rattle.stock.specs.Refusals.{answered};
ghost use Rattle.stock.specs.Sizes.{listed, list_fault, with_listed};
ghost use Rattle.stock.specs.BadLists.{bad_list};
ghost use Rattle.stock.specs.Places.{numbers};

use crate::bad::BadSlots;
use fault::shape::ShapeFault;

// Whether a number stands in one of the places before the first empty one. Kept out of line, so that `has` is short enough to
// be copied into its callers.
#[inline(never)]
fn stands_in(places: &[Option<u64>], slot: u64) -> bool
    ensures { result ≡ listed (numbers places.now) slot }
{
    for place in places {
        match place {
            Some(x) if *x == slot => return true,
            Some(_) => {}
            None => return false,
        }
    }
    false
}

impl BadSlots {
    // The empty list.
    pub fn none() -> BadSlots
        ensures { bad_list result ≡ [] }
    {
        BadSlots { slots: [None; 16] }
    }

    // Most lists are empty, and that is told by the first place alone.
    pub fn has(&self, slot: u64) -> bool
        ensures { result ≡ listed (bad_list self.now) slot }
    {
        self.slots[0].is_some() && stands_in(&self.slots, slot)
    }

    // The first empty place.
    fn free(&self) -> Option<usize>
        ensures { result ≡ position is_none self.now.slots }
    {
        self.slots.iter().position(|place| place.is_none())
    }

    // Adds a slot, unless it stands there already; a seventeenth is refused.
    pub fn add(&mut self, slot: u64) -> Result<(), ShapeFault>
        ensures answer { result ≡ answered (list_fault (bad_list self.old) slot) tt }
        ensures list { bad_list self.new ≡ with_listed (bad_list self.old) slot }
    {
        if self.has(slot) {
            return Ok(());
        }
        let free = self.free().ok_or(ShapeFault::ListFull)?;
        self.slots[free] = Some(slot);
        Ok(())
    }
}
