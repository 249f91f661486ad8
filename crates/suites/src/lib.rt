// The two suites: the long one, of 16-byte rows and AES, and the short one, of eight-byte words and Speck64/128.
#![tactic(auto)]

pub mod block;
pub mod block_suite;
pub mod keys;
pub mod long;
pub mod short;
