// The filter: a text is loaded into a small fresh reel, and what the reel then holds is listed.
ghost use Rattle.std.specs.Prelude.{◌≡◌, ℕ, ◌+◌, ◌*◌, ◌≤◌, length, IfOk, vec_len};
ghost use Rattle.reel.specs.States.{locked_book};
ghost use Rattle.flat.specs.FlatHeld.{flat_held};
ghost use Rattle.listing.specs.Listings.{listing_of};
ghost use Rattle.listing.specs.Loadings.{lines_loaded};
ghost use Rattle.frames.specs.Refusals.{refusal_number};
ghost use Rattle.frames.specs.Filters.{blank_book, Filtered};

use fault::line::LineFault;
use fault::report;
use flat::flat::FlatStock;
use listing::list::list_frames;
use listing::load::load_listing;
use reel::reel::LockedReel;
use std::alloc::{AllocError, Global};
use stock::bad::BadSlots;
use stock::size::FrameSize;
use stock::stock::Stock;
use suites::short::ShortSuite;

// What a text comes to: the listing of the small reel after the loading, and what the loading answered.
#[derive(Drop)]
pub struct Outcome {
    pub listing: Vec<u8>,
    pub loaded: Result<u64, LineFault>,
}

impl Outcome {
    // How many lines were loaded.
    pub(crate) fn lines(&self) -> u64
        ensures { result ≡ lines_loaded self.now.loaded }
    {
        match self.loaded {
            Ok(lines) => lines,
            Err(fault) => fault.line.saturating_sub(1),
        }
    }

    // The number of the refusal, or 0 where nothing was refused.
    pub(crate) fn refusal(&self) -> u8
        ensures { result ≡ refusal_number self.now.loaded }
    {
        report::refusal_number(&self.loaded).unwrap_or(0)
    }
}

// A locked, fresh flat reel of the short suite, with frames of 16 bytes over an area of 68: four slots.
fn small_reel(area: Vec<u8>) -> LockedReel<FlatStock, ShortSuite>
    requires { vec_len area ≡ 68 }
    ensures { locked_book flat_held result ≡ blank_book }
{
    let Ok(size) = FrameSize::new(16) else {
        unreachable()
    };
    LockedReel::new(
        FlatStock::fresh(area, size, BadSlots::none()),
        ShortSuite::new(),
    )
}

// The listing of a stock, in an area that has room for a line of every slot.
fn listed<St: Stock>(stock: &St, mut area: Vec<u8>) -> Vec<u8>
    requires { length (St.held stock.now).slots * (10 + 2 * (St.held stock.now).frame) ≤ vec_len area }
    ensures { result.items ≡ listing_of (St.held stock.now).slots }
{
    let Ok(bytes) = list_frames(stock, area.as_mut_slice()) else {
        unreachable()
    };
    area.truncate(bytes);
    area
}

// Loads the text into the small reel and lists it.
pub fn filter(heap: Global, text: &[u8]) -> Result<Outcome, AllocError>
    ensures { IfOk result (λ o. Filtered text.now o) }
{
    let area = vec![in heap; 0u8; 68]?;
    let room = vec![in heap; 0u8; 168]?;
    let mut reel = small_reel(area);
    let loaded = load_listing(&mut reel, text);
    let listing = listed(reel.stock(), room);
    Ok(Outcome { listing, loaded })
}
