//! Only `checks/hash.sh` runs it: reads lines of a seed, a space and bytes in hex, and prints the hash of each in hex.
#![tactic(auto)]

use anyhow::{Context, Result};
use murmur64::murmur64;
use std::alloc::Global;
use std::io;
use std::io::{BufRead, BufReader, BufWriter, Write};

fn hash_of_line(alloc: Global, line: &str) -> Result<u64> {
    let (seed, text) = line.split_once(' ').context("no space")?;
    let seed = seed.parse::<u64>().context("no seed")?;
    let bytes = hex::decode(alloc, text).context("no bytes")?;
    Ok(murmur64(&bytes, seed))
}

fn main(rt: HostRuntime) -> Result<()> {
    let alloc = rt.alloc();
    let mut out = BufWriter::new(alloc, io::writer(&rt))?;
    for line in BufReader::new(alloc, rt.reader())?.lines(alloc) {
        let line = line?;
        let hash = hash_of_line(alloc, line.as_str())?;
        writeln!(out, "{hash:016x}")?;
    }
    out.flush()?;
    Ok(())
}
