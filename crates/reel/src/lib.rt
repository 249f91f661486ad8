// Reels: a stock and a suite together. A locked reel moves frames in and out as they are.
#![tactic(auto)]

pub mod load;
pub mod reel;
