// One line of a listing: writing it, cutting it off a text, and reading it.
ghost use Rattle.std.specs.Prelude.{◌≡◌, ℕ, ◌+◌, ◌*◌, ◌^◌, ◌<◌, ◌≤◌, length, MatchOption, MatchResult, IfOk, OnOk, slice_index};
ghost use Rattle.stock.specs.Refusals.{answered};
ghost use Rattle.listing.specs.Digits.{not_hex, row_of};
ghost use Rattle.listing.specs.Lines.{line_of, IsFirstLine, address_from, line_for, address_in, frame_in, line_cause};
ghost use Rattle.fault.specs.declared.line.LineCause.TheVariants.{NotAbove};

use crate::digit::{read_row, write_row};
use fault::line::LineCause;

// Writes the line of a frame.
pub(crate) fn write_line(address: u64, frame: &[u8], out: &mut [u8])
    requires { length out.old ≡ 10 + 2 * length frame.now }
    ensures line { out.new ≡ line_for address frame.now }
    ensures bytes { (k : ℕ) → slice_index frame.now k < 256 }
{
    let feed = out.len() - 1;
    write_row(&address.to_be_bytes()[4..], &mut out[..8]);
    out[8] = b' ';
    write_row(frame, &mut out[9..feed]);
    out[feed] = b'\n';
}

// The first line of a text, with its line feed if it has one, and what comes after; none where the text is empty.
pub(crate) fn split_line(text: &[u8]) -> Option<(&[u8], &[u8])>
    ensures { MatchOption result (length text.now ≡ 0) (λ p. IsFirstLine text.now p.0.now p.1.now) }
{
    let line = text.split_inclusive(|c| *c == b'\n').next()?;
    Some((line, &text[line.len()..]))
}

// The address that eight digits spell.
fn read_address(text: &[u8]) -> Result<u32, LineCause>
    requires { length text.now ≡ 8 }
    ensures { result ≡ answered (not_hex text.now) (address_from (row_of text.now)) }
{
    let mut bytes = [0u8; 4];
    read_row(text, &mut bytes)?;
    Ok(u32::from_be_bytes(bytes))
}

// Refused by 13 where the address is below `low`.
fn check_above(address: u64, low: u64) -> Result<(), LineCause>
    requires { address < 2 ^ 32 }
    ensures { MatchResult result (λ _. low ≤ address) (λ e. (e ≡ NotAbove) × (address < low)) }
{
    if address < low {
        return Err(LineCause::NotAbove);
    }
    Ok(())
}

// The address of a line; its frame goes into `frame`. Refused by 11 to 13.
pub(crate) fn read_line(line: &[u8], low: u64, frame: &mut [u8]) -> Result<u64, LineCause>
    requires { length frame.old ≤ 8208 }
    ensures answer { result ≡ answered (line_cause (length frame.old) low (line_of line.now)) (address_in (line_of line.now).text) }
    ensures frame { OnOk result (frame.new ≡ frame_in (line_of line.now).text) }
    ensures small { IfOk result (λ a. a < 2 ^ 32) }
{
    let [text @ .., b'\n'] = line else {
        return Err(LineCause::NotALine);
    };
    if text.len() != 9 + 2 * frame.len() {
        return Err(LineCause::NotALine);
    }
    let address = u64::from(read_address(&text[..8])?);
    if text[8] != b' ' {
        return Err(LineCause::NotDigits);
    }
    read_row(&text[9..], frame)?;
    check_above(address, low)?;
    Ok(address)
}
