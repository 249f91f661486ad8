// Loading a listing.
ghost use Rattle.std.specs.Prelude.{◌≡◌, ℕ, ◌^◌, ◌<◌, length, take, IfOk};
ghost use Rattle.stock.specs.Refusals.{answered, unless};
ghost use Rattle.listing.specs.Lines.{lines, line_of, address_in};
ghost use Rattle.listing.specs.Loadings.{decline, after_line, loaded, after_lines, lines_loaded, FirstRefused};

use crate::line::{read_line, split_line};
use fault::line::{LineCause, LineFault};
use reel::load::Loadable;
use stock::size::FrameSize;

// Loads one line; `row` is where its frame is kept.
fn load_line<R: Loadable>(
    reel: &mut R,
    line: &[u8],
    low: u64,
    row: &mut [u8],
) -> Result<u64, LineCause>
    requires { length row.old ≡ (R.book reel.old).held.frame }
    ensures answer { result ≡ answered (decline R.block (R.book reel.old) low (line_of line.now)) (address_in (line_of line.now).text) }
    ensures book { R.book reel.new ≡ unless (decline R.block (R.book reel.old) low (line_of line.now)) (after_line R.block (R.book reel.old) (line_of line.now)) (R.book reel.old) }
    ensures rest { R.rest reel.new ≡ R.rest reel.old }
    ensures small { IfOk result (λ a. a < 2 ^ 32) }
{
    let address = read_line(line, low, row)?;
    reel.load(address, row)?;
    Ok(address)
}

// Loads the lines of the text, and answers how many there are. Stops at the first line that is refused: by 11 to 13,
// or by 5, 6 or 8 of the reel. The lines before it stay loaded, and nothing else has changed.
pub fn load_listing<R: Loadable>(reel: &mut R, text: &[u8]) -> Result<u64, LineFault>
    ensures answer { result ≡ (loaded R.block (R.book reel.old) text.now).answer }
    ensures book { R.book reel.new ≡ (loaded R.block (R.book reel.old) text.now).after }
    ensures loads { R.book reel.new ≡ after_lines R.block (R.book reel.old) (take (lines_loaded result) (lines text.now)) }
    ensures first { FirstRefused R.block (R.book reel.old) (lines text.now) result }
    ensures rest { R.rest reel.new ≡ R.rest reel.old }
{
    let mut room = [0u8; FrameSize::MOST];
    let row = &mut room[..reel.frame_len()];
    let mut rest = text;
    let mut low = 0;
    let mut loaded = 0;
    while let Some((line, after)) = split_line(rest) {
        let address = load_line(reel, line, low, row).map_err(|cause| LineFault {
            cause,
            line: loaded + 1,
        })?;
        rest = after;
        low = address + 1;
        loaded += 1;
    }
    Ok(loaded)
}
