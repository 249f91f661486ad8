// Binary fields of 64 and of 128 bits: sums, doubling and products, on machine words and on rows of bytes.
#![tactic(auto)]

pub mod row;
pub mod word;
