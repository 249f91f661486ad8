// Suites: how sectors are cut into blocks.
#![tactic(auto)]

pub mod suite;
