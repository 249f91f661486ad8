// Machine words as polynomials over the field of two elements: bit i is the coefficient of power i.
ghost use Rattle.std.specs.Prelude.{◌≡◌, ℕ, ◌*◌, ◌/◌, ◌%◌, ◌^◌, ◌<◌, List, bit_xor};
ghost use Rattle.std.specs.Bool.{FalseIff};
ghost use Rattle.arith.specs.Field.{pick, doubled, product, Field};
ghost use Rattle.arith.specs.Fields.{field64, field128};
ghost use Rattle.arith.specs.Rows.{bytes_of, value as number};

// A word of an arithmetic without zero divisors: its sum is XOR, and its products are taken modulo a polynomial.
pub trait Word: Copy {
    // The bytes that write a word, the highest first.
    type Row: Copy;

    // How many bits a word has.
    const BITS: u32;

    // What is added to a doubled word that has dropped a 1.
    const CONSTANT: Self;

    ghost BITS: { ℕ };

    ghost CONSTANT: { Self };

    ghost value: { Self → ℕ };

    ghost bytes: { Self.Row → List ℕ };

    // The word that a row writes.
    fn from_row(row: Self::Row) -> Self
        ensures { value result ≡ number BITS (bytes row) };

    // The row that writes the word.
    fn to_row(self) -> Self::Row
        ensures { bytes result ≡ bytes_of (BITS / 8) (value self) };

    fn zero() -> Self
        ensures { value result ≡ 0 };

    fn add(self, other: Self) -> Self
        ensures { value result ≡ bit_xor (value self) (value other) };

    // One place up, and whether a 1 falls out.
    fn shift_up(self) -> (Self, bool)
        ensures word { value result.0 ≡ value self * 2 % 2 ^ BITS }
        ensures carry { FalseIff result.1 (value self * 2 < 2 ^ BITS) };

    // One place up; where a 1 falls out, the constant is added.
    fn double(self) -> Self
        ensures { value result ≡ doubled BITS (value CONSTANT) (value self) }
    {
        let (up, carry) = self.shift_up();
        let added = if carry { Self::CONSTANT } else { Self::zero() };
        up.add(added)
    }

    // One place down; the lowest bit is dropped.
    fn halve(self) -> Self
        ensures { value result ≡ value self / 2 };

    // The word where the lowest bit of `by` is 1, and zero where it is 0.
    fn if_odd(self, by: Self) -> Self
        ensures { value result ≡ pick 0 (value by % 2) (value self) };

    // the laws of the arithmetic
    ghost field: { Field BITS (value CONSTANT) };
}

// The sum, with `left` added where the lowest bit of `right` is 1.
fn add_if_odd<W: Word>(sum: W, left: W, right: W) -> W
    ensures { W.value result ≡ bit_xor (W.value sum) (pick 0 (W.value right % 2) (W.value left)) }
{
    sum.add(left.if_odd(right))
}

// The product of two words: the sum of `a` doubled i times, over every power i whose bit in `b` is 1.
pub fn multiply<W: Word>(a: W, b: W) -> W
    ensures value { W.value result ≡ product W.BITS (W.value W.CONSTANT) (W.value a) (W.value b) }
    ensures field { Field W.BITS (W.value W.CONSTANT) }
{
    let mut sum = W::zero();
    let mut left = a;
    let mut right = b;
    for _ in 0..W::BITS {
        sum = add_if_odd(sum, left, right);
        left = left.double();
        right = right.halve();
    }
    sum
}

// Products modulo x^64 + x^4 + x^3 + x + 1.
impl Word for u64 {
    type Row = [u8; 8];

    const BITS: u32 = u64::BITS;

    const CONSTANT: u64 = 0x1b;

    ghost BITS = { 64 };

    ghost CONSTANT = { 0x1b };

    ghost value = { λ x. x };

    ghost bytes = { λ row. row };

    ghost field = { field64 };

    fn from_row(row: [u8; 8]) -> u64 {
        u64::from_be_bytes(row)
    }

    #[tactic(auto, unfolding(crate::specs::Rows::bytes_of))]
    fn to_row(self) -> [u8; 8] {
        u64::to_be_bytes(self)
    }

    fn zero() -> u64 {
        0
    }

    fn add(self, other: u64) -> u64 {
        self ^ other
    }

    fn shift_up(self) -> (u64, bool) {
        u64::overflowing_add(self, self)
    }

    fn halve(self) -> u64 {
        self >> 1
    }

    fn if_odd(self, by: u64) -> u64 {
        (by & 1) * self
    }
}

// Products modulo x^128 + x^7 + x^2 + x + 1.
impl Word for u128 {
    type Row = [u8; 16];

    const BITS: u32 = u128::BITS;

    const CONSTANT: u128 = 0x87;

    ghost BITS = { 128 };

    ghost CONSTANT = { 0x87 };

    ghost value = { λ x. x };

    ghost bytes = { λ row. row };

    ghost field = { field128 };

    fn from_row(row: [u8; 16]) -> u128 {
        u128::from_be_bytes(row)
    }

    #[tactic(auto, unfolding(crate::specs::Rows::bytes_of))]
    fn to_row(self) -> [u8; 16] {
        u128::to_be_bytes(self)
    }

    fn zero() -> u128 {
        0
    }

    fn add(self, other: u128) -> u128 {
        self ^ other
    }

    fn shift_up(self) -> (u128, bool) {
        u128::overflowing_add(self, self)
    }

    fn halve(self) -> u128 {
        self >> 1
    }

    fn if_odd(self, by: u128) -> u128 {
        (by & 1) * self
    }
}
