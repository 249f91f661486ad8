// Listings: the frames of a stock as text, a line each, and that text loaded again.
//
// A line is the address in eight digits, a space, two digits for each byte of the frame, and a line feed.
#![tactic(auto)]

pub mod copy;
mod digit;
mod line;
pub mod list;
pub mod load;
