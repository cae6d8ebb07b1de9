//! Only the gate and `checks/` run it: reads lines of an index and keys in hex, and prints its first fault or the keys' values.
#![tactic(auto)]

use anyhow::{Context, Result};
use index_file::{IndexFault, read_index};
use std::alloc::Global;
use std::io;
use std::io::{BufRead, BufReader, BufWriter, Write};

// Prints a fault by the numbers that it carries.
fn print_fault<W: Write>(out: &mut W, fault: IndexFault) -> Result<()> {
    match fault {
        IndexFault::Short => write!(out, "short")?,
        IndexFault::Magic => write!(out, "magic")?,
        IndexFault::Version { found } => write!(out, "version {found}")?,
        IndexFault::Digest { kept, counted } => write!(out, "digest {kept} {counted}")?,
        IndexFault::Encoding => write!(out, "encoding")?,
        IndexFault::Field { at } => write!(out, "field {at}")?,
        IndexFault::Count { kept, sum } => write!(out, "count {kept} {sum}")?,
        IndexFault::Form(form) => write!(out, "form {} {}", form.kind, form.at)?,
        IndexFault::Pilot { part, bucket } => write!(out, "pilot {part} {bucket}")?,
        IndexFault::Free { part, place } => write!(out, "free {part} {place}")?,
        IndexFault::Long { at } => write!(out, "long {at}")?,
        IndexFault::Large => write!(out, "large")?,
        IndexFault::NoMemory => write!(out, "no memory")?,
    }
    Ok(())
}

// Prints what a line asks for: an index, then keys with a colon before each.
fn print_answer<W: Write>(alloc: Global, line: &str, out: &mut W) -> Result<()> {
    let mut words = line.split(' ');
    let bytes = hex::decode(alloc, words.next().context("no index")?).context("no bytes")?;
    match read_index(alloc, &bytes) {
        Err(fault) => print_fault(out, fault)?,
        Ok(index) => {
            write!(out, "ok")?;
            for word in words {
                let word = word.strip_prefix(':').context("no colon")?;
                let key = hex::decode(alloc, word).context("no key")?;
                match index.lookup(&key) {
                    None => write!(out, " -")?,
                    Some(value) => write!(out, " {value}")?,
                }
            }
        }
    }
    writeln!(out)?;
    Ok(())
}

fn main(rt: HostRuntime) -> Result<()> {
    let alloc = rt.alloc();
    let mut out = BufWriter::new(alloc, io::writer(&rt))?;
    for line in BufReader::new(alloc, rt.reader())?.lines(alloc) {
        let line = line?;
        print_answer(alloc, line.as_str(), &mut out)?;
    }
    out.flush()?;
    Ok(())
}
