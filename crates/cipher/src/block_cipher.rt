// What a block cipher is: encryption alone, under a key.
ghost use Rattle.std.specs.Prelude.{◌≡◌, ℕ, ◌≤◌, Bool, true, false, List, length, MatchOption};
ghost use Rattle.arith.specs.Rows.{Bytes, Row, OneToOne};

// A cipher on blocks of N bytes. A value of it is the cipher under one key.
pub trait BlockCipher<const N: usize>: Copy {
    // the key lengths that are taken, in bytes
    ghost takes: { ℕ → Bool };

    // a block under the bytes of a key
    ghost enciphered: { List ℕ → List ℕ → List ℕ };

    // the bytes of the key that a value was made from
    ghost key_of: { Self → List ℕ };

    // the key of a value has a length that is taken
    ghost taken: { (c : Self) → takes (length (key_of c)) ≡ true };

    // the key of a value is bytes
    ghost bytes: { (c : Self) → Bytes (key_of c) };

    // no key has more than 32 bytes
    ghost most: { (n : ℕ) → takes n ≡ true → n ≤ 32 };

    // blocks are taken to blocks
    ghost rows: { (key block : List ℕ) → Bytes key → Row N block → Row N (enciphered key block) };

    // under one key no two blocks are taken to one
    ghost one_to_one: { (key : List ℕ) → Bytes key → OneToOne N (enciphered key) };

    // The cipher under a key; there is none for a key of a length that is not taken.
    fn new(key: &[u8]) -> Option<Self>
        ensures { MatchOption result (takes (length key.now) ≡ false) (λ c. (takes (length key.now) ≡ true) × (key_of c ≡ key.now)) };

    // A block under the key. Distinct blocks give distinct blocks.
    fn encrypt(&self, block: &[u8; N]) -> [u8; N]
        ensures value { result ≡ enciphered (key_of self.now) block.now }
        ensures apart { OneToOne N (enciphered (key_of self.now)) };

    // The key.
    fn key(&self) -> &[u8]
        ensures { result.now ≡ key_of self.now };
}
