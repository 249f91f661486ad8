// Accepted keys, with the bytes they came from.
ghost use Rattle.std.specs.Prelude.{◌≡◌, false, length};
ghost use Rattle.arith.specs.Rows.{Bytes, zeros};
ghost use Rattle.stock.specs.Refusals.{Answers};
ghost use Rattle.ciphersuite.specs.Keys.{hash_fault};

use arith::row::spread;
use ciphersuite::keys::check_hash_key;
use fault::key::KeyFault;

// A hash key: a row of one block of N bytes, not all of them zero.
#[derive(Clone, Copy)]
pub struct HashKey<const N: usize> {
    row: [u8; N],
    ghost long: { length row ≡ N },
    ghost bytes: { Bytes row },
    ghost some: { zeros row ≡ false },
}

impl<const N: usize> HashKey<N> {
    // The hash key of these bytes. Refused by 3 and 4.
    pub(crate) fn new(bytes: &[u8]) -> Result<HashKey<N>, KeyFault>
        ensures { Answers (hash_fault N bytes.now) (λ k. k.row ≡ bytes.now) result }
    {
        check_hash_key(N, bytes)?;
        Ok(HashKey { row: spread(bytes) })
    }

    pub(crate) fn row(&self) -> [u8; N]
        ensures { result ≡ self.now.row }
    {
        self.row
    }
}

// Accepted keys: the cipher under its key, and the hash key.
#[derive(Clone, Copy)]
pub struct Keys<C, const N: usize> {
    pub(crate) cipher: C,
    pub(crate) hash: HashKey<N>,
}
