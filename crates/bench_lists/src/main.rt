//! Times lists of numbers: prints the nanoseconds that a part takes and a checksum of its answers.
#![tactic(auto)]

mod codes;
mod input;
mod parts;

use crate::codes::time_code;
use crate::parts::{Timed, time_get, time_select};
use pilot_codecs::Code;
use std::alloc::Global;
use std::rt::Clock;
use std::{env, io};

fn main(rt: HostRuntime) -> io::Result<()> {
    let mut words = env::args(&rt)?;
    let _program = words.next();
    let part = words.next();
    let count = words.next();
    let code = words.next();
    match (part, count) {
        (Some(part), Some(count)) => {
            let count = count.as_str().parse::<u32>().unwrap_or(10_000);
            let code = match code {
                Some(code) => code_of(code.as_str()),
                None => Code::Compact,
            };
            let Timed { nanos, checksum } = time(rt.alloc(), &rt, part.as_str(), count, code)?;
            println!(rt; "{nanos} {checksum}")
        }
        _ => println!(rt;
            "parts: select1, get_dense, get_sparse; encode, read, get; then how many values; then a code"
        ),
    }
}

// Faulty names are compact's: what is timed is seen in the checksum.
fn code_of(name: &str) -> Code {
    match name {
        "pc" => Code::Parted,
        "d" => Code::Dict,
        "ef" => Code::EliasFano,
        _ => Code::Compact,
    }
}

fn time(
    alloc: Global,
    clock: &impl Clock,
    part: &str,
    count: u32,
    code: Code,
) -> io::Result<Timed> {
    match part {
        "select1" => time_select(alloc, clock, count),
        "get_dense" => time_get(alloc, clock, count, 62),
        "get_sparse" => time_get(alloc, clock, count, 44),
        _ => time_code(alloc, clock, part, count, code),
    }
}
