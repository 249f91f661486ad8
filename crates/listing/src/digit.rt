// Hex digits, 0 to 9 and A to F, two to a byte.
ghost use Rattle.std.specs.Prelude.{◌≡◌, ◌∷◌, [], ◌*◌, ◌<◌, length, OnOk};
ghost use Rattle.stock.specs.Refusals.{answered};
ghost use Rattle.listing.specs.Digits.{hex, hex_value, digits_of, row_of, not_hex};

use fault::line::LineCause;

fn digit(v: u8) -> u8
    requires { v < 16 }
    ensures { result ≡ hex v }
{
    if v < 10 { b'0' + v } else { b'A' - 10 + v }
}

// The two digits of a byte.
fn digits(byte: u8) -> [u8; 2]
    ensures { result ≡ digits_of (byte ∷ []) }
{
    [digit(byte / 16), digit(byte % 16)]
}

// What a digit stands for.
fn value(c: u8) -> Result<u8, LineCause>
    ensures answer { result ≡ answered (not_hex (c ∷ [])) (hex_value c) }
    ensures small { OnOk result (hex_value c < 16) }
{
    if !c.is_ascii_digit() && !matches!(c, b'A'..=b'F') {
        return Err(LineCause::NotDigits);
    }
    Ok(if c <= b'9' { c - b'0' } else { c - (b'A' - 10) })
}

// Writes each byte as two digits.
pub(crate) fn write_row(row: &[u8], out: &mut [u8])
    requires { length out.old ≡ 2 * length row.now }
    ensures { out.new ≡ digits_of row.now }
{
    for (i, byte) in row.iter().enumerate() {
        out[2 * i..2 * i + 2].copy_from_slice(&digits(*byte));
    }
}

// Reads two digits to a byte. Refused by 12 where the text is not digits alone.
pub(crate) fn read_row(text: &[u8], row: &mut [u8]) -> Result<(), LineCause>
    requires { length text.now ≡ 2 * length row.old }
    ensures answer { result ≡ answered (not_hex text.now) tt }
    ensures row { OnOk result (row.new ≡ row_of text.now) }
{
    let (pairs, _) = text.as_chunks::<2>();
    for (i, [high, low]) in pairs.iter().enumerate() {
        row[i] = value(*high)? * 16 + value(*low)?;
    }
    Ok(())
}
