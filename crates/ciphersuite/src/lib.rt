// Suites: what sectors are sealed with. A suite is a block length, an arithmetic on blocks, and a cipher.
#![tactic(auto)]

pub mod cipher_suite;
pub mod keys;
pub mod tally;
