// Which keys are accepted, and keys made again.
ghost use Rattle.std.specs.Prelude.{◌≡◌};
ghost use Rattle.arith.specs.Rows.{Bytes, zeros};
ghost use Rattle.stock.specs.Refusals.{answered};
ghost use Rattle.ciphersuite.specs.Keys.{hash_fault, CameFrom};

use crate::cipher_suite::CipherSuite;
use fault::key::KeyFault;

// Whether every byte of a row is zero.
pub fn all_zero(row: &[u8]) -> bool
    ensures { result ≡ zeros row.now }
{
    row.iter().all(|x| *x == 0)
}

// What every suite asks of a hash key: one block of bytes, else 3, that are not all zero, else 4.
pub fn check_hash_key(block_len: usize, hash_key: &[u8]) -> Result<(), KeyFault>
    ensures { result ≡ answered (hash_fault block_len hash_key.now) tt }
{
    if hash_key.len() != block_len {
        return Err(KeyFault::HashKeyLength);
    }
    if all_zero(hash_key) {
        return Err(KeyFault::ZeroHashKey);
    }
    Ok(())
}

// Keys made again from the bytes that accepted keys tell: they tell the same.
pub fn make_again<S: CipherSuite>(keys: &S::Keys) -> S::Keys
    ensures { CameFrom S.meaning (S.meaning.cipher_key keys.now) (S.meaning.hash_key keys.now) result }
{
    let cipher_key = S::cipher_key_bytes(keys);
    let hash_key = S::hash_key_bytes(keys);
    let Ok(again) = S::make_keys(cipher_key.as_slice(), hash_key.as_slice()) else {
        unreachable()
    };
    again
}
