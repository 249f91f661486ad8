// Listing a stock.
ghost use Rattle.std.specs.Prelude.{◌≡◌, ℕ, ◌+◌, ◌-◌, ◌*◌, ◌<◌, ◌≤◌, length, IfOk, OnOk, OnErr, slice_index};
ghost use Rattle.stock.specs.Areas.{written};
ghost use Rattle.stock.specs.Refusals.{answered};
ghost use Rattle.listing.specs.Listings.{lines_of, listing_in, AllBytes, WholeLines, RoomForAll, listing_answer, listing_area, no_room};
ghost use Rattle.listing.specs.Lines.{line_for};

use crate::line::write_line;
use fault::line::{LineCause, LineFault};
use stock::size::FrameSize;
use stock::stock::Stock;

// A listing that is being written: its area, and how many bytes and lines of it are written.
#[derive(Drop)]
struct Listing<'a> {
    area: &'a mut [u8],
    bytes: usize,
    lines: u64,
}

impl Listing<'_> {
    // Writes the line of a frame behind the others. Refused by 14, with nothing altered, where it has no room.
    fn add(&mut self, address: u64, frame: &[u8]) -> Result<(), LineFault>
        requires within { self.old.bytes ≤ length self.old.area.now }
        requires few { self.old.lines ≤ self.old.bytes }
        requires short { length frame.now ≤ 8208 }
        ensures answer { result ≡ answered (no_room self.old.lines (10 + 2 * length frame.now) (length self.old.area.now - self.old.bytes)) tt }
        ensures same_area { self.new.area.ghost_name ≡ self.old.area.ghost_name }
        ensures written { OnOk result (self.new.area.now ≡ written self.old.bytes (line_for address frame.now) self.old.area.now) }
        ensures unaltered { OnErr result (self.new.area.now ≡ self.old.area.now) }
        ensures bytes { OnOk result (self.new.bytes ≡ self.old.bytes + (10 + 2 * length frame.now)) }
        ensures lines { OnOk result (self.new.lines ≡ self.old.lines + 1) }
        ensures fit { OnOk result ((k : ℕ) → slice_index frame.now k < 256) }
    {
        let width = 10 + 2 * frame.len();
        if self.area.len() - self.bytes < width {
            return Err(LineFault {
                cause: LineCause::NoRoom,
                line: self.lines + 1,
            });
        }
        let end = self.bytes + width;
        write_line(address, frame, &mut self.area[self.bytes..end]);
        self.bytes = end;
        self.lines += 1;
        Ok(())
    }
}

// Writes the lines of the filled slots into the area, in rising order, and answers how many bytes they are. Refused by
// 14 at the first line that does not fit; the lines before it are then written, and the rest of the area is as it was.
pub fn list_frames<St: Stock>(stock: &St, area: &mut [u8]) -> Result<usize, LineFault>
    ensures answer { result ≡ listing_answer (St.held stock.now) area.old }
    ensures area { area.new ≡ listing_area (St.held stock.now) area.old }
    ensures lines { WholeLines (lines_of 0 (St.held stock.now).slots) (length area.old) (listing_in (St.held stock.now).slots (length area.old)) }
    ensures room { RoomForAll (St.held stock.now) (length area.old) }
    ensures within { IfOk result (λ n. n ≤ length area.old) }
    ensures bytes { OnOk result (AllBytes (St.held stock.now).slots) }
{
    let mut room = [0u8; FrameSize::MOST];
    let row = &mut room[..stock.frame_len()];
    let mut listing = Listing {
        area,
        bytes: 0,
        lines: 0,
    };
    for slot in 0..stock.slots() {
        if stock.get(slot, row).is_ok() {
            listing.add(slot, row)?;
        }
    }
    Ok(listing.bytes)
}
