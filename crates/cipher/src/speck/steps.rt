// The steps of Speck64/128: a round on two words of 32 bits, the round keys, and all rounds on a block.
ghost use Rattle.std.specs.Prelude.{◌≡◌, ◌*◌, ◌≤◌, ◌++◌, length};
ghost use Rattle.arith.specs.Rows.{by_place};
ghost use Rattle.cipher.specs.Speck.{mixed, turned, word, word_bytes, speck_keys, rounds};

use std::array;

// The first N words of a row of bytes, each with its lowest byte first.
fn words<const N: usize>(s: &[u8]) -> [u32; N]
    requires { 4 * N ≤ length s.now }
    ensures { result ≡ by_place N (λ i. word s.now (4 * i)) }
{
    let (words, _) = s.as_chunks::<4>();
    array::from_fn(|i| u32::from_le_bytes(words[i]))
}

// A block of two words, y before x.
fn block_of(x: u32, y: u32) -> [u8; 8]
    ensures { result ≡ word_bytes y ++ word_bytes x }
{
    (u64::from(x) << 32 | u64::from(y)).to_le_bytes()
}

// What a round under k makes of x.
fn mix(x: u32, y: u32, k: u32) -> u32
    ensures { result ≡ mixed x y k }
{
    x.rotate_right(8).wrapping_add(y) ^ k
}

// What a round makes of y, given what it made of x.
fn turn(y: u32, x: u32) -> u32
    ensures { result ≡ turned y x }
{
    y.rotate_left(3) ^ x
}

// The round keys of a key.
pub(super) fn expand(key: &[u8; 16]) -> [u32; 27]
    ensures { result ≡ speck_keys key.now }
{
    let [mut k, mut a, mut b, mut c] = words::<4>(key);
    let mut keys = [0; 27];
    for (i, round_key) in keys.iter_mut().enumerate() {
        *round_key = k;
        let l = mix(a, k, i as u32);
        k = turn(k, l);
        (a, b, c) = (b, c, l);
    }
    keys
}

// A block through all rounds.
pub(super) fn encrypt_by(keys: &[u32; 27], block: &[u8; 8]) -> [u8; 8]
    ensures { result ≡ rounds keys.now (word block.now 4) (word block.now 0) }
{
    let [mut y, mut x] = words::<2>(block);
    for k in keys {
        x = mix(x, y, *k);
        y = turn(y, x);
    }
    block_of(x, y)
}
