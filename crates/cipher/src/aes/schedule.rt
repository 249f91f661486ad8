// The key expansion of FIPS 197, byte by byte.
ghost use Rattle.std.specs.Prelude.{◌≡◌, ◌/◌, ◌<◌, true, length};
ghost use Rattle.cipher.specs.Schedule.{rcon as constant_of, key_byte, aes_rounds, Scheduled};
ghost use Rattle.cipher.specs.Aes.{aes_takes};

use crate::aes::steps::xtime;
use crate::sbox::sub_byte;

// The round constant: {02} to the n.
fn rcon(n: usize) -> u8
    ensures { result ≡ constant_of n }
{
    (0..n).fold(1, |c, _| xtime(c))
}

// Byte j of the round keys, from those before it: byte r of word i, where j = 4 i + r.
fn key_byte(key: &[u8], w: &[u8; 240], j: usize) -> u8
    requires { (aes_takes (length key.now) ≡ true) × (j < 240) }
    ensures { result ≡ key_byte (length key.now / 4) key.now w.now j }
{
    if let Some(b) = key.get(j) {
        return *b;
    }
    let nk = key.len() / 4;
    let i = j / 4;
    let r = j % 4;
    let before = &w[4 * i - 4..4 * i];
    let given = if i % nk == 0 {
        let c = if r == 0 { rcon(i / nk - 1) } else { 0 };
        sub_byte(before[(r + 1) % 4]) ^ c
    } else if nk > 6 && i % nk == 4 {
        sub_byte(before[r])
    } else {
        before[r]
    };
    w[j - 4 * nk] ^ given
}

// How many rounds a key of so many bytes has.
pub(super) fn rounds(len: usize) -> usize
    ensures { result ≡ aes_rounds len }
{
    len / 4 + 6
}

// The round keys of a key.
pub(super) fn key_expansion(key: &[u8]) -> [u8; 240]
    requires { aes_takes (length key.now) ≡ true }
    ensures { Scheduled key.now result }
{
    let mut w = [0; 240];
    for j in 0..16 * rounds(key.len()) + 16 {
        w[j] = key_byte(key, &w, j);
    }
    w
}
