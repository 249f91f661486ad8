// Rows of bytes: the number that a row writes, the highest byte first, and the sums, doubles and products of the rows that write words.
ghost use Rattle.std.specs.Prelude.{◌≡◌, ◌/◌, length, bit_xor};
ghost use Rattle.arith.specs.Field.{doubled, product};
ghost use Rattle.arith.specs.Rows.{Bytes, bytes_of, fitted, value};

use crate::word::{Word, multiply};

// Fills a row with the first bytes of another, and with zeros behind them where that has fewer.
#[tactic(auto, using(crate::proofs::Places::front_fitted))]
pub fn fit(row: &mut [u8], bytes: &[u8])
    ensures row { row.new ≡ fitted (length row.old) bytes.now }
    ensures bytes { Bytes bytes.now }
{
    let n = bytes.len().min(row.len());
    let (front, behind) = row.split_at_mut(n);
    front.copy_from_slice(&bytes[..n]);
    behind.fill(0);
}

// A row at the front of N bytes: its first N, with zeros behind them where it has fewer.
pub fn spread<const N: usize>(bytes: &[u8]) -> [u8; N]
    ensures row { result ≡ fitted N bytes.now }
    ensures bytes { Bytes bytes.now }
{
    let mut row = [0; N];
    fit(&mut row, bytes);
    row
}

// The sum of two rows.
pub fn add_rows<W: Word>(a: W::Row, b: W::Row) -> W::Row
    ensures { W.bytes result ≡ bytes_of (W.BITS / 8) (bit_xor (value W.BITS (W.bytes a)) (value W.BITS (W.bytes b))) }
{
    W::from_row(a).add(W::from_row(b)).to_row()
}

// The row shifted left by one bit; where a 1 falls out, the constant of its words is added.
pub fn double_row<W: Word>(a: W::Row) -> W::Row
    ensures { W.bytes result ≡ bytes_of (W.BITS / 8) (doubled W.BITS (W.value W.CONSTANT) (value W.BITS (W.bytes a))) }
{
    W::from_row(a).double().to_row()
}

// The product of two rows.
pub fn multiply_rows<W: Word>(a: W::Row, b: W::Row) -> W::Row
    ensures { W.bytes result ≡ bytes_of (W.BITS / 8) (product W.BITS (W.value W.CONSTANT) (value W.BITS (W.bytes a)) (value W.BITS (W.bytes b))) }
{
    multiply(W::from_row(a), W::from_row(b)).to_row()
}
