// Lists of bad slots.
ghost use Rattle.std.specs.Prelude.{ℕ, ◌≤◌, length};
ghost use Rattle.stock.specs.Sizes.{Distinct};
ghost use Rattle.stock.specs.Places.{numbers, Packed};

pub mod list;

// At most 16 different slot numbers, one in each place, and the empty places behind them.
#[derive(Clone, Copy)]
pub struct BadSlots {
    slots: [Option<u64>; 16],
    ghost packed: { Packed slots },
    ghost few: { length (numbers slots) ≤ 16 },
    ghost once: { Distinct (numbers slots) },
}
