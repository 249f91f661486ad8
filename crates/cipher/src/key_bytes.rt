// The bytes that keys came from.
ghost use Rattle.std.specs.Prelude.{◌≡◌};
ghost use Rattle.cipher.specs.KeyBytes.{bytes_kept, kept};

use arith::row::spread;

// A key of at most 32 bytes, with zeros behind it, and its length.
#[derive(Clone, Copy)]
pub struct KeyBytes {
    pub row: [u8; 32],
    pub len: usize,
}

impl KeyBytes {
    // Keeps the bytes of a key; of more than 32 it keeps the first 32, and tells the whole length.
    pub fn new(key: &[u8]) -> KeyBytes
        ensures { result ≡ kept key.now }
    {
        KeyBytes {
            row: spread(key),
            len: key.len(),
        }
    }

    // The bytes of the key.
    pub fn as_slice(&self) -> &[u8]
        ensures { result.now ≡ bytes_kept self.now }
    {
        let end = self.len.min(32);
        &self.row[0..end]
    }
}
