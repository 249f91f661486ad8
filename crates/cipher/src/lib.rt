// Block ciphers, encryption only: AES (FIPS 197) and Speck64/128.
#![tactic(auto)]

pub mod aes;
pub mod block_cipher;
pub mod key_bytes;
pub mod sbox;
pub mod speck;
