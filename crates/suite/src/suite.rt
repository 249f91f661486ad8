// What a suite is.
ghost use Rattle.std.specs.Prelude.{◌≡◌, ℕ, ◌≤◌};

// A suite is what sectors are sealed with. Here it is its block length: a frame is a number of whole blocks.
pub trait Suite {
    // the block length in bytes
    const L: usize;

    ghost L: { ℕ };

    ghost low: { 8 ≤ L };

    ghost high: { L ≤ 32 };
}
