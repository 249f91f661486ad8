// What a suite is.
ghost use Rattle.std.specs.Prelude.{◌≡◌};
ghost use Rattle.arith.specs.Rows.{fitted};
ghost use Rattle.stock.specs.Refusals.{Answers};
ghost use Rattle.ciphersuite.specs.Tallies.{Tallies, Within, raised};
ghost use Rattle.ciphersuite.specs.Meaning.{Meaning, numbered};
ghost use Rattle.cipher.specs.KeyBytes.{kept};
ghost use Rattle.ciphersuite.specs.Keys.{key_fault, CameFrom};

use cipher::key_bytes::KeyBytes;
use fault::key::KeyFault;
use suite::suite::Suite;

// A suite with all that sectors are sealed with: an arithmetic on blocks that keeps the laws of its meaning, and a cipher with
// keys of at most 32 bytes. It declines nothing but the making of keys.
pub trait CipherSuite: Suite {
    // a row of L bytes, in the suite's own form
    type Block: Copy;

    // accepted keys
    type Keys: Copy;

    // what blocks and keys stand for, and the laws that they keep
    ghost meaning: { Meaning Self.Block Self.Keys };

    // how often a product and a square were asked for; no answer depends on them
    ghost tallies: { Self → Tallies };

    // whatever else a suite's value holds: products and squares do not touch that
    ghost aside: { Type 0 };

    ghost rest: { Self → aside };

    // The block that the first L bytes are; where there are fewer, zeros stand behind them.
    fn block_from(bytes: &[u8]) -> Self::Block
        ensures { meaning.means result ≡ meaning.reads (fitted meaning.size bytes.now) };

    // The row of a block, with zeros behind it.
    fn row_of(block: Self::Block) -> [u8; 32]
        ensures { result ≡ fitted 32 (meaning.row (meaning.means block)) };

    // The number j as a block.
    fn number(j: u64) -> Self::Block
        ensures { meaning.means result ≡ numbered meaning j };

    fn zero() -> Self::Block
        ensures { meaning.means result ≡ meaning.field.zero };

    fn add(a: Self::Block, b: Self::Block) -> Self::Block
        ensures { meaning.means result ≡ meaning.field.add (meaning.means a) (meaning.means b) };

    // The product; raises the first tally by one.
    fn multiply(&mut self, a: Self::Block, b: Self::Block) -> Self::Block
        ensures value { meaning.means result ≡ meaning.field.mul (meaning.means a) (meaning.means b) }
        ensures counted { tallies self.new ≡ raised 1 0 (tallies self.old) }
        ensures rest { rest self.new ≡ rest self.old };

    // The product of a block with itself; raises the second tally by one.
    fn square(&mut self, a: Self::Block) -> Self::Block
        ensures value { meaning.means result ≡ meaning.field.mul (meaning.means a) (meaning.means a) }
        ensures counted { tallies self.new ≡ raised 0 1 (tallies self.old) }
        ensures rest { rest self.new ≡ rest self.old };

    // Makes keys of a cipher key and a hash key. Refused by 2, 3 and 4; all other bytes are accepted.
    fn make_keys(cipher_key: &[u8], hash_key: &[u8]) -> Result<Self::Keys, KeyFault>
        ensures { Answers (key_fault meaning cipher_key.now hash_key.now) (CameFrom meaning cipher_key.now hash_key.now) result };

    // The hash key as a block.
    fn hash_key(keys: &Self::Keys) -> Self::Block
        ensures { meaning.means result ≡ meaning.reads (meaning.hash_key keys.now) };

    fn encrypt(keys: &Self::Keys, block: Self::Block) -> Self::Block
        ensures { meaning.means result ≡ meaning.cipher (meaning.cipher_key keys.now) (meaning.means block) };

    // The bytes of the cipher key that the keys came from.
    fn cipher_key_bytes(keys: &Self::Keys) -> KeyBytes
        ensures { result ≡ kept (meaning.cipher_key keys.now) };

    // The bytes of the hash key that the keys came from.
    fn hash_key_bytes(keys: &Self::Keys) -> KeyBytes
        ensures { result ≡ kept (meaning.hash_key keys.now) };

    ghost size: { meaning.size ≡ Self.L };

    ghost within: { (s : Self) → Within (tallies s) };
}
