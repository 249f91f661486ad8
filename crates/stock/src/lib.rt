// Stocks: where frames are kept, and what every kind of stock promises.
//
// A stock has a frame length F and S slots, and each slot is bad, blank or filled with a frame of F bytes.
#![tactic(auto)]

pub mod area;
pub mod bad;
pub mod condition;
pub mod size;
pub mod stock;
