// A listing taken from one stock and loaded into another.
ghost use Rattle.std.specs.Prelude.{◌≡◌, ℕ, length};
ghost use Rattle.listing.specs.Listings.{listing_area};
ghost use Rattle.listing.specs.Copies.{copied, ComesOver};

use crate::list::list_frames;
use crate::load::load_listing;
use fault::line::LineFault;
use reel::load::Loadable;
use stock::stock::Stock;

// Lists the stock into the area, and loads that listing into the reel. Where the reel is blank and of the same shape,
// and the area takes the whole listing, the reel holds then what the stock holds.
pub fn copy_frames<St: Stock, R: Loadable>(
    stock: &St,
    area: &mut [u8],
    reel: &mut R,
) -> Result<u64, LineFault>
    ensures answer { result ≡ (copied R.block (St.held stock.now) (R.book reel.old) (length area.old)).answer }
    ensures book { R.book reel.new ≡ (copied R.block (St.held stock.now) (R.book reel.old) (length area.old)).after }
    ensures area { area.new ≡ listing_area (St.held stock.now) area.old }
    ensures over { ComesOver R.block (St.held stock.now) (R.book reel.old) (length area.old) (R.book reel.new) result }
    ensures rest { R.rest reel.new ≡ R.rest reel.old }
{
    let end = list_frames(stock, area)?;
    load_listing(reel, &area[..end])
}
