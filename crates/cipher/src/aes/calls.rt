// Taking a key, encrypting a block, and giving the key back.
ghost use Rattle.cipher.specs.Aes.{aes_takes, aes};
ghost use Rattle.cipher.specs.AesKey.{aes_key};
ghost use Rattle.cipher.specs.AesApart.{aes_most, aes_row, aes_one_to_one};

use crate::aes::Aes;
use crate::aes::schedule::{key_expansion, rounds};
use crate::aes::steps::encrypt_by;
use crate::block_cipher::BlockCipher;
use crate::key_bytes::KeyBytes;

// AES on blocks of 16 bytes, under keys of 16 or of 32 bytes.
impl BlockCipher<16> for Aes {
    ghost takes = { aes_takes };

    ghost enciphered = { aes };

    ghost key_of = { aes_key };

    ghost taken = { λ a. a.taken };

    ghost bytes = { λ a. a.bytes };

    ghost most = { aes_most };

    ghost rows = { aes_row };

    ghost one_to_one = { aes_one_to_one };

    fn new(key: &[u8]) -> Option<Aes> {
        match key.len() {
            16 | 32 => Some(Aes {
                key: KeyBytes::new(key),
                schedule: key_expansion(key),
            }),
            _ => None,
        }
    }

    fn encrypt(&self, block: &[u8; 16]) -> [u8; 16] {
        encrypt_by(&self.schedule, rounds(self.key.len), block)
    }

    fn key(&self) -> &[u8] {
        self.key.as_slice()
    }
}
