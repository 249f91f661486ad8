// Reads a listing from standard input, loads it into a small reel, and prints the reel's listing and how the loading ended.
#![tactic(auto)]

ghost use Rattle.std.specs.Prelude.{◌≤◌, length, IfOk};

use filter::filter;
use std::io;
use std::io::{Read, Write};

mod filter;
#[cfg(test)]
mod tests;

// At most so many bytes are read.
const MOST: usize = 4096;

// The input in the row, or its first bytes where it has more than the row takes; answers how many there are.
fn read_input(rt: &HostRuntime, row: &mut [u8]) -> io::Result<usize>
    ensures { IfOk result (λ n. n ≤ length row.old) }
{
    let mut stdin = rt.stdin();
    let mut got = 0;
    while got < row.len() {
        let more = stdin.read(&mut row[got..])?;
        if more == 0 {
            break;
        }
        got += more;
    }
    Ok(got)
}

fn run(rt: &HostRuntime) -> anyhow::Result<()> {
    let mut text = [0u8; MOST];
    let end = read_input(rt, &mut text)?;
    let outcome = filter(rt.alloc(), &text[..end])?;
    let lines = outcome.lines();
    let refusal = outcome.refusal();
    rt.stdout().write_all(outcome.listing.as_slice())?;
    println!(rt; "{lines} {refusal}")?;
    Ok(())
}

fn main(rt: HostRuntime) -> anyhow::Result<()> {
    run(&rt)
}
