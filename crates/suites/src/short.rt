// The short suite, for small cards: blocks are words of eight bytes, the cipher is Speck64/128 with keys of 16 bytes.
ghost use Rattle.std.specs.Prelude.{◌≡◌};
ghost use Rattle.arith.specs.Fields.{field64};
ghost use Rattle.suites.specs.Numbers.{at};
ghost use Rattle.cipher.specs.Speck.{speck, speck_takes};
ghost use Rattle.suites.specs.Suites.{SuiteOf};
ghost use Rattle.std.proofs.Common.{lit≤};

use crate::block::Block;
use crate::block_suite::BlockSuite;
use arith::word::{Word, multiply};
use cipher::speck::Speck;
use ciphersuite::cipher_suite::CipherSuite;
use suite::suite::Suite;

pub type ShortSuite = BlockSuite<u64, Speck, 8>;

// Keys of the short suite: Speck under the cipher key, and a hash key of eight bytes.
pub type ShortKeys = <ShortSuite as CipherSuite>::Keys;

// How many bytes a block of the short suite has. Its cipher is Speck64/128, and its products are those of the field of 1B hex.
#[tactic(auto, using(crate::specs::Short::short_rows))]
pub fn block_len() -> usize
    ensures len { result ≡ 8 }
    ensures rows { SuiteOf 8 0x1b speck_takes speck ⟦<ShortSuite as CipherSuite>⟧.meaning }
{
    ShortSuite::L
}

// A word stands for its number.
impl Block<8> for u64 {
    ghost constant = { 0x1b };

    ghost field = { field64 };

    ghost low = { lit≤ tt };

    ghost high = { lit≤ tt };

    ghost means = { at 8 };

    fn from_row(row: &[u8; 8]) -> u64 {
        Word::from_row(*row)
    }

    fn to_row(self) -> [u8; 8] {
        Word::to_row(self)
    }

    fn number(j: u64) -> u64 {
        j
    }

    fn zero() -> u64 {
        0
    }

    fn add(self, other: u64) -> u64 {
        self ^ other
    }

    fn multiply(self, other: u64) -> u64 {
        multiply(self, other)
    }
}
