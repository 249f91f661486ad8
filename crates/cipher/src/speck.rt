// Speck64/128 under one key, as it lies in memory.
ghost use Rattle.std.specs.Prelude.{◌≡◌, length};
ghost use Rattle.arith.specs.Rows.{Bytes};
ghost use Rattle.cipher.specs.Speck.{speck_keys};

pub mod calls;
mod steps;

// The key bytes, and the round keys made from them.
#[derive(Clone, Copy)]
pub struct Speck {
    key: [u8; 16],
    schedule: [u32; 27],
    ghost within: { length key ≡ 16 },
    ghost bytes: { Bytes key },
    ghost made: { schedule ≡ speck_keys key },
}
