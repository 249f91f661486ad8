// Frame lengths that a stock may have.
ghost use Rattle.std.specs.Prelude.{◌≡◌, ℕ, ◌≤◌};
ghost use Rattle.stock.specs.Refusals.{Answers};
ghost use Rattle.stock.specs.Sizes.{size_fault};

use fault::shape::ShapeFault;

// A frame length: 16 to 8,208 bytes.
#[derive(Clone, Copy, PartialEq, Eq, Debug)]
pub struct FrameSize {
    bytes: usize,
    ghost low: { 16 ≤ bytes },
    ghost high: { bytes ≤ 8208 },
}

impl FrameSize {
    // The least frame length, in bytes.
    pub const LEAST: usize = 16;

    // The greatest, in bytes.
    pub const MOST: usize = 8208;

    pub fn new(bytes: usize) -> Result<FrameSize, ShapeFault>
        ensures { Answers (size_fault bytes) (λ s. s.bytes ≡ bytes) result }
    {
        if (FrameSize::LEAST..=FrameSize::MOST).contains(&bytes) {
            Ok(FrameSize { bytes })
        } else {
            Err(ShapeFault::FrameSize)
        }
    }

    pub fn get(&self) -> usize
        ensures { result ≡ self.now.bytes }
    {
        self.bytes
    }
}
