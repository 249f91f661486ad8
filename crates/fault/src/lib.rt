// Every refusal of every layer. Each layer's fault is a type of its own, holds the fault below it whole, and tells one report.
#![tactic(auto)]

pub mod key;
pub mod layer;
pub mod line;
pub mod reel;
pub mod report;
pub mod shape;
pub mod stock;
