// Taking a key, encrypting a block, and giving the key back.
ghost use Rattle.cipher.specs.Speck.{speck_takes, speck};
ghost use Rattle.cipher.specs.SpeckKey.{speck_key};
ghost use Rattle.cipher.specs.SpeckApart.{speck_taken, speck_most, speck_row, speck_one_to_one};

use crate::block_cipher::BlockCipher;
use crate::speck::Speck;
use crate::speck::steps::{encrypt_by, expand};

// Speck64/128 on blocks of 8 bytes, under keys of 16 bytes.
impl BlockCipher<8> for Speck {
    ghost takes = { speck_takes };

    ghost enciphered = { speck };

    ghost key_of = { speck_key };

    ghost taken = { λ s. speck_taken (speck_key s) s.within };

    ghost bytes = { λ s. s.bytes };

    ghost most = { speck_most };

    ghost rows = { λ key block _ _. speck_row key block };

    ghost one_to_one = { speck_one_to_one };

    fn new(key: &[u8]) -> Option<Speck> {
        let key = <[u8; 16]>::try_from(key).ok()?;
        let schedule = expand(&key);
        Some(Speck { key, schedule })
    }

    fn encrypt(&self, block: &[u8; 8]) -> [u8; 8] {
        encrypt_by(&self.schedule, block)
    }

    fn key(&self) -> &[u8] {
        &self.key
    }
}
