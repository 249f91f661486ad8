// The flat stock, as it lies in memory.
ghost use Rattle.std.specs.Prelude.{◌≡◌, ℕ, length};
ghost use Rattle.flat.specs.Flats.{flat_count};

use stock::bad::BadSlots;
use stock::size::FrameSize;

pub mod calls;

// A stock over an area that it owns, a medium's image. Each of its slots is a mark byte, 1 for filled, and the bytes of
// a frame. What it holds is told by the area, the frame size and the list of bad slots alone.
#[derive(Drop)]
pub struct FlatStock {
    area: Vec<u8>,
    size: FrameSize,
    slots: usize,
    bad: BadSlots,
    ghost count: { slots ≡ flat_count size.bytes (length area.items) },
}
