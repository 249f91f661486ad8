// The steps of FIPS 197: four on a state of 16 bytes, and the rounds made of them.
ghost use Rattle.std.specs.Prelude.{◌≡◌, ◌<◌};
ghost use Rattle.cipher.specs.Field.{xtime as doubled};
ghost use Rattle.cipher.specs.Steps.{mixed, sub_bytes, shift_rows, mix_columns, add_round_key};
ghost use Rattle.cipher.specs.Aes.{middle_round, last_round, aes_by};

use crate::sbox::sub_byte;
use std::array;

// A byte times {02}.
pub(super) fn xtime(b: u8) -> u8
    ensures { result ≡ doubled b }
{
    (b << 1) ^ (b >> 7) * 0x1b
}

// Each byte through the S-box.
fn sub_bytes(s: &[u8; 16]) -> [u8; 16]
    ensures { result ≡ sub_bytes s.now }
{
    array::from_fn(|i| sub_byte(s[i]))
}

// Each row of the state moved left by its number.
fn shift_rows(s: &[u8; 16]) -> [u8; 16]
    ensures { result ≡ shift_rows s.now }
{
    array::from_fn(|i| s[(i + 4 * (i % 4)) % 16])
}

// A byte, mixed with the three below it in its column.
fn mix(a: u8, b: u8, c: u8, d: u8) -> u8
    ensures { result ≡ mixed a b c d }
{
    xtime(a) ^ xtime(b) ^ b ^ c ^ d
}

// Each column mixed.
fn mix_columns(s: &[u8; 16]) -> [u8; 16]
    ensures { result ≡ mix_columns s.now }
{
    array::from_fn(|i| {
        let top = i / 4 * 4;
        mix(
            s[top + i % 4],
            s[top + (i + 1) % 4],
            s[top + (i + 2) % 4],
            s[top + (i + 3) % 4],
        )
    })
}

// The state plus a round key.
fn add_round_key(k: &[u8; 16], s: &[u8; 16]) -> [u8; 16]
    ensures { result ≡ add_round_key k.now 0 s.now }
{
    array::from_fn(|i| s[i] ^ k[i])
}

// A round that is not the last, under its round key.
fn middle_round(k: &[u8; 16], s: &[u8; 16]) -> [u8; 16]
    ensures { result ≡ middle_round k.now 0 s.now }
{
    add_round_key(k, &mix_columns(&shift_rows(&sub_bytes(s))))
}

// The last round, which mixes no columns, under its round key.
fn last_round(k: &[u8; 16], s: &[u8; 16]) -> [u8; 16]
    ensures { result ≡ last_round k.now 0 s.now }
{
    add_round_key(k, &shift_rows(&sub_bytes(s)))
}

// A block through all rounds of these round keys, one after the other.
pub(super) fn encrypt_by(w: &[u8; 240], rounds: usize, block: &[u8; 16]) -> [u8; 16]
    requires { (0 < rounds) × (rounds < 15) }
    ensures { result ≡ aes_by rounds w.now block.now }
{
    let (keys, _) = w.as_chunks::<16>();
    let mut s = add_round_key(&keys[0], block);
    for k in &keys[1..rounds] {
        s = middle_round(k, &s);
    }
    last_round(&keys[rounds], &s)
}
