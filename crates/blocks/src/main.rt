// Shows both suites at work: which keys each refuses, and what it makes of blocks under keys that it accepts. With a number as
// its argument it makes so many products instead, for timing.
#![tactic(auto)]

use ciphersuite::cipher_suite::CipherSuite;
use ciphersuite::keys::make_again;
use ciphersuite::tally::Tally;
use std::alloc::{AllocError, Global};
use std::env;
use suite::suite::Suite;
use suites::long::LongSuite;
use suites::short::ShortSuite;

// 32 bytes from 1 on, of which keys are cut.
const KEY: [u8; 32] = [
    1, 2, 3, 4, 5, 6, 7, 8, 9, 10, 11, 12, 13, 14, 15, 16, 17, 18, 19, 20, 21, 22, 23, 24, 25, 26,
    27, 28, 29, 30, 31, 32,
];

// The row of a block, as pairs of digits.
fn block_hex<S: CipherSuite>(heap: Global, block: S::Block) -> Result<String, AllocError> {
    let row = S::row_of(block);
    hex::encode_upper(heap, &row[..S::L])
}

// Tells what comes of making keys of these bytes.
fn try_keys<S: CipherSuite>(
    rt: &HostRuntime,
    cipher_key: &[u8],
    hash_key: &[u8],
) -> anyhow::Result<()> {
    let cipher_len = cipher_key.len();
    let hash_len = hash_key.len();
    match S::make_keys(cipher_key, hash_key) {
        Ok(_) => println!(rt; "  keys of {cipher_len} and {hash_len} bytes: accepted")?,
        Err(fault) => println!(rt; "  keys of {cipher_len} and {hash_len} bytes: {fault}")?,
    }
    Ok(())
}

// Tells what the suite makes of two blocks under accepted keys.
fn show_blocks<S: CipherSuite>(
    rt: &HostRuntime,
    suite: &mut S,
    keys: &S::Keys,
) -> anyhow::Result<()> {
    let heap = rt.alloc();
    let a = S::number(0x0E);
    let b = S::number(0x11);
    let sum = block_hex::<S>(heap, S::add(a, b))?;
    let product = block_hex::<S>(heap, suite.multiply(a, b))?;
    let square = block_hex::<S>(heap, suite.square(a))?;
    println!(rt; "  0E + 11 = {sum}")?;
    println!(rt; "  0E x 11 = {product}")?;
    println!(rt; "  0E x 0E = {square}")?;
    let first = block_hex::<S>(heap, S::encrypt(keys, a))?;
    let again = make_again::<S>(keys);
    let second = block_hex::<S>(heap, S::encrypt(&again, a))?;
    println!(rt; "  0E enciphered: {first}")?;
    println!(rt; "  and by keys made again from the bytes that these tell: {second}")?;
    Ok(())
}

// Tells which keys a suite refuses, and what it makes of blocks.
fn show<S: CipherSuite>(rt: &HostRuntime, name: &str, suite: &mut S) -> anyhow::Result<()> {
    println!(rt; "{name}")?;
    let len = S::L;
    println!(rt; "  blocks of {len} bytes")?;
    try_keys::<S>(rt, &KEY[..24], &KEY[..len])?;
    try_keys::<S>(rt, &KEY[..16], &KEY[..12])?;
    try_keys::<S>(rt, &KEY[..16], &[0; 32][..len])?;
    try_keys::<S>(rt, &KEY, &KEY[..len])?;
    try_keys::<S>(rt, &KEY[..16], &KEY[..len])?;
    match S::make_keys(&KEY[..16], &KEY[..len]) {
        Ok(keys) => show_blocks(rt, suite, &keys)?,
        Err(fault) => println!(rt; "  {fault}")?,
    }
    Ok(())
}

// Tells how often a suite was asked.
fn show_asked(rt: &HostRuntime, asked: Tally) -> anyhow::Result<()> {
    println!(rt;
        "  it was asked for {} product and {} square",
        asked.products, asked.squarings
    )?;
    Ok(())
}

// The first argument as a number, if there is one.
fn asked(rt: &HostRuntime) -> anyhow::Result<Option<u64>> {
    let Some(word) = env::args(rt)?.nth(1) else {
        return Ok(None);
    };
    Ok(Some(word.parse::<u64>()?))
}

// So many products of 16-byte rows, each of the last one and a fixed one.
fn products(count: u64) -> [u8; 32] {
    let mut suite = LongSuite::new();
    let by = <LongSuite as CipherSuite>::block_from(&KEY[16..32]);
    let mut block = <LongSuite as CipherSuite>::block_from(&KEY[0..16]);
    for _ in 0..count {
        let next = suite.multiply(block, by);
        block = next;
    }
    <LongSuite as CipherSuite>::row_of(block)
}

fn run(rt: &HostRuntime) -> anyhow::Result<()> {
    if let Some(count) = asked(rt)? {
        let row = hex::encode_upper(rt.alloc(), &products(count)[..16])?;
        println!(rt; "after {count} products: {row}")?;
        return Ok(());
    }
    let mut long = LongSuite::new();
    show(rt, "The long suite", &mut long)?;
    show_asked(rt, long.tally())?;
    let mut short = ShortSuite::new();
    show(rt, "The short suite", &mut short)?;
    show_asked(rt, short.tally())?;
    Ok(())
}

fn main(rt: HostRuntime) -> anyhow::Result<()> {
    run(&rt)
}
