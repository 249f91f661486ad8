// The flat stock: slot after slot, a mark byte and a frame.
#![tactic(auto)]

pub mod flat;
mod mark;
