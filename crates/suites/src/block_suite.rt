// A suite of any form of blocks and any cipher on them.
ghost use Rattle.std.specs.Prelude.{◌≡◌};
ghost use Rattle.ciphersuite.specs.Tallies.{none_asked, tallied as tally_of};
ghost use Rattle.suites.specs.Numbers.{over};
ghost use Rattle.suites.specs.Keys.{cipher_of, telling};
ghost use Rattle.std.proofs.Common.{rules};

use crate::block::Block;
use crate::keys::{HashKey, Keys};
use arith::row::spread;
use cipher::block_cipher::BlockCipher;
use cipher::key_bytes::KeyBytes;
use ciphersuite::cipher_suite::CipherSuite;
use ciphersuite::tally::Tally;
use fault::key::KeyFault;
use std::marker::PhantomData;
use suite::suite::Suite;

// The suite of blocks of the form B, N bytes long, under the cipher C, with how often it was asked for products and squares.
#[derive(Clone, Copy)]
pub struct BlockSuite<B, C, const N: usize> {
    tally: Tally,
    of: PhantomData<(B, C)>,
}

impl<B, C, const N: usize> BlockSuite<B, C, N> {
    pub fn new() -> BlockSuite<B, C, N>
        ensures { tally_of result.tally ≡ none_asked }
    {
        BlockSuite {
            tally: Tally::new(),
            of: PhantomData,
        }
    }

    // How often it was asked for products and squares, as of now.
    pub fn tally(&self) -> Tally
        ensures { result ≡ self.now.tally }
    {
        let BlockSuite { tally, .. } = self;
        *tally
    }
}

impl<B: Block<N>, C: BlockCipher<N>, const N: usize> Suite for BlockSuite<B, C, N> {
    const L: usize = N;

    ghost L = { N };

    ghost low = { B.low };

    ghost high = { B.high };
}

impl<B: Block<N>, C: BlockCipher<N>, const N: usize> CipherSuite for BlockSuite<B, C, N> {
    type Block = B;

    type Keys = Keys<C, N>;

    ghost meaning = { over N B.low B.high B.field B.means C.takes C.enciphered (cipher_of N C.takes C.enciphered C.most C.rows C.one_to_one) (telling N C.takes C.key_of C.taken C.bytes) };

    ghost tallies = { λ s. tally_of s.tally };

    ghost aside = { Unit {0} };

    ghost rest = { λ _. tt };

    ghost size = { Prim.search rules };

    ghost within = { Prim.search rules };

    fn block_from(bytes: &[u8]) -> B {
        B::from_row(&spread(bytes))
    }

    fn row_of(block: B) -> [u8; 32] {
        spread(&block.to_row())
    }

    fn number(j: u64) -> B {
        B::number(j)
    }

    fn zero() -> B {
        B::zero()
    }

    fn add(a: B, b: B) -> B {
        a.add(b)
    }

    fn multiply(&mut self, a: B, b: B) -> B {
        self.tally.count_product();
        a.multiply(b)
    }

    fn square(&mut self, a: B) -> B {
        self.tally.count_squaring();
        a.multiply(a)
    }

    fn make_keys(cipher_key: &[u8], hash_key: &[u8]) -> Result<Keys<C, N>, KeyFault> {
        let cipher = C::new(cipher_key).ok_or(KeyFault::CipherKeyLength)?;
        let hash = HashKey::new(hash_key)?;
        Ok(Keys { cipher, hash })
    }

    fn hash_key(keys: &Keys<C, N>) -> B {
        B::from_row(&keys.hash.row())
    }

    fn encrypt(keys: &Keys<C, N>, block: B) -> B {
        B::from_row(&keys.cipher.encrypt(&block.to_row()))
    }

    fn cipher_key_bytes(keys: &Keys<C, N>) -> KeyBytes {
        KeyBytes::new(keys.cipher.key())
    }

    fn hash_key_bytes(keys: &Keys<C, N>) -> KeyBytes {
        KeyBytes::new(&keys.hash.row())
    }
}
