// AES under one key, as it lies in memory.
ghost use Rattle.std.specs.Prelude.{◌≡◌, true, length};
ghost use Rattle.arith.specs.Rows.{Bytes};
ghost use Rattle.cipher.specs.KeyBytes.{bytes_kept};
ghost use Rattle.cipher.specs.Schedule.{Scheduled};
ghost use Rattle.cipher.specs.Aes.{aes_takes};

use crate::key_bytes::KeyBytes;

pub mod calls;
mod schedule;
mod steps;

// The key, and the round keys made from it.
#[derive(Clone, Copy)]
pub struct Aes {
    key: KeyBytes,
    schedule: [u8; 240],
    ghost within: { length (bytes_kept key) ≡ key.len },
    ghost taken: { aes_takes (length (bytes_kept key)) ≡ true },
    ghost bytes: { Bytes (bytes_kept key) },
    ghost made: { Scheduled (bytes_kept key) schedule },
}
