// What a suite computes with: blocks that stand for the elements of a field.
ghost use Rattle.std.specs.Prelude.{◌≡◌, ℕ, ◌*◌, ◌≤◌};
ghost use Rattle.arith.specs.Field.{Elem, Field};
ghost use Rattle.arith.specs.Rows.{bytes_of};
ghost use Rattle.suites.specs.Numbers.{read_at};

// A block of N bytes, in the form in which a suite keeps it. It stands for an element of a field of 2 ^ (8 * N) elements.
pub trait Block<const N: usize>: Copy {
    // what is added where doubling drops a 1
    ghost constant: { ℕ };

    // the arithmetic, with its laws
    ghost field: { Field (8 * N) constant };

    ghost low: { 8 ≤ N };

    ghost high: { N ≤ 32 };

    // the element that a block stands for
    ghost means: { Self → Elem (8 * N) };

    // The block that a row writes.
    fn from_row(row: &[u8; N]) -> Self
        ensures { means result ≡ read_at N row.now };

    // The row that writes the block.
    fn to_row(self) -> [u8; N]
        ensures { result ≡ bytes_of N (means self).0 };

    // The number j as a block.
    fn number(j: u64) -> Self
        ensures { means result ≡ read_at N (bytes_of N j) };

    fn zero() -> Self
        ensures { means result ≡ field.domain.zero };

    fn add(self, other: Self) -> Self
        ensures { means result ≡ field.domain.add (means self) (means other) };

    fn multiply(self, other: Self) -> Self
        ensures { means result ≡ field.domain.mul (means self) (means other) };
}
