// One slot of a flat area: a mark byte and the bytes of a frame.
ghost use Rattle.std.specs.Prelude.{◌≡◌, ℕ, ◌+◌, ◌*◌, ◌<◌, ◌≤◌, ◌∷◌, length, slice_set};
ghost use Rattle.flat.specs.Flats.{flat_condition, Unmarked};

use stock::condition::Condition;
use stock::size::FrameSize;

// The mark of a filled slot. Every other mark is that of a blank one.
const FILLED: u8 = 1;

// The mark that a blank slot is given.
const BLANK: u8 = 0;

// The condition of a slot by its mark, and by whether it is listed as bad.
pub(crate) fn condition_of(listed: bool, mark: u8) -> Condition
    ensures { result ≡ flat_condition listed mark }
{
    match (listed, mark) {
        (true, _) => Condition::Bad,
        (false, FILLED) => Condition::Filled,
        (false, _) => Condition::Blank,
    }
}

// Fills a slot with the bytes of a frame.
pub(crate) fn fill_slot(slot: &mut [u8], bytes: &[u8])
    requires { length slot.old ≡ length bytes.now + 1 }
    ensures { slot.new ≡ 1 ∷ bytes.now }
{
    let Some((mark, frame)) = slot.split_first_mut() else {
        unreachable!();
    };
    frame.copy_from_slice(bytes);
    *mark = FILLED;
}

// Clears a slot.
pub(crate) fn clear_slot(slot: &mut [u8])
    requires { 0 < length slot.old }
    ensures { slot.new ≡ slice_set slot.old 0 0 }
{
    slot[0] = BLANK;
}

// Sets the marks of the first `slots` slots to 0, and alters nothing else.
pub(crate) fn clear_marks(area: &mut [u8], size: FrameSize, slots: usize)
    requires { slots * (size.bytes + 1) ≤ length area.old }
    ensures { Unmarked size.bytes slots area.old area.new }
{
    let len = size.get() + 1;
    for slot in 0..slots {
        area[slot * len] = BLANK;
    }
}
