// The long suite: blocks are rows of sixteen bytes, the cipher is AES with keys of 16 or 32 bytes.
ghost use Rattle.std.specs.Prelude.{◌≡◌};
ghost use Rattle.arith.specs.Fields.{field128};
ghost use Rattle.cipher.specs.Aes.{aes, aes_takes};
ghost use Rattle.suites.specs.Suites.{SuiteOf};
ghost use Rattle.suites.specs.Numbers.{read_at};
ghost use Rattle.std.proofs.Common.{lit≤};

use crate::block::Block;
use crate::block_suite::BlockSuite;
use arith::row::{add_rows, multiply_rows, spread};
use arith::word::Word;
use cipher::aes::Aes;
use ciphersuite::cipher_suite::CipherSuite;
use suite::suite::Suite;

pub type LongSuite = BlockSuite<[u8; 16], Aes, 16>;

// Keys of the long suite: AES under the cipher key, and a hash key of 16 bytes.
pub type LongKeys = <LongSuite as CipherSuite>::Keys;

// How many bytes a block of the long suite has. Its cipher is AES, and its products are those of the field of 87 hex.
#[tactic(auto, using(crate::specs::Long::long_rows))]
pub fn block_len() -> usize
    ensures len { result ≡ 16 }
    ensures rows { SuiteOf 16 0x87 aes_takes aes ⟦<LongSuite as CipherSuite>⟧.meaning }
{
    LongSuite::L
}

// A row stands for the number that it writes.
impl Block<16> for [u8; 16] {
    ghost constant = { 0x87 };

    ghost field = { field128 };

    ghost low = { lit≤ tt };

    ghost high = { lit≤ tt };

    ghost means = { read_at 16 };

    fn from_row(row: &[u8; 16]) -> [u8; 16] {
        *row
    }

    // `spread` tells that what it copies are bytes.
    fn to_row(self) -> [u8; 16] {
        spread(&self)
    }

    fn number(j: u64) -> [u8; 16] {
        u128::from(j).to_row()
    }

    fn zero() -> [u8; 16] {
        [0; 16]
    }

    fn add(self, other: [u8; 16]) -> [u8; 16] {
        add_rows::<u128>(self, other)
    }

    fn multiply(self, other: [u8; 16]) -> [u8; 16] {
        multiply_rows::<u128>(self, other)
    }
}
