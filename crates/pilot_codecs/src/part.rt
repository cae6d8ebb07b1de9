// A list under one code.
ghost use Rattle.std.specs.Prelude.{◌≡◌, ◌+◌, ◌^◌, ◌<◌, ◌≤◌, ◌++◌, length, take, IfOk, OnOk};
ghost use Rattle.std.specs.List.{slice_get};
ghost use Rattle.elias_fano.specs.Values.{below_len};
ghost use Rattle.elias_fano.specs.Reading.{Gives, TellsShort};
ghost use Rattle.pilot_codecs.specs.Spelling.{greatest, code_text};
ghost use Rattle.pilot_codecs.specs.Reading.{code_at};
ghost use Rattle.pilot_codecs.specs.Values.{values_of, code_of};

use crate::code::Code;
use crate::compact::Compact;
use crate::dict::Dict;
use crate::parted::Parted;
use crate::sums::Sums;
use bit_vector::NoMemory;
use elias_fano::ReadErr;
use std::alloc::Global;

/// A list under one code.
#[derive(Drop)]
pub enum Part {
    Compact(Compact),
    Parted(Parted),
    Dict(Dict),
    EliasFano(Sums),
}

/// The list of these values under a code.
pub fn encode_part(alloc: Global, values: &[u64], code: Code) -> Result<Part, NoMemory>
    requires few { length values.now ≤ 2 ^ 30 }
    requires small { greatest values.now < 2 ^ 32 }
    ensures values { IfOk result (λ p. values_of p ≡ values.now) }
    ensures code { IfOk result (λ p. code_of p ≡ code) }
{
    let part = match code {
        Code::Compact => Part::Compact(Compact::encode(alloc, values)?),
        Code::Parted => Part::Parted(Parted::encode(alloc, values)?),
        Code::Dict => Part::Dict(Dict::encode(alloc, values)?),
        Code::EliasFano => Part::EliasFano(Sums::encode(alloc, values)?),
    };
    Ok(part)
}

/// How many values a list has.
pub fn part_len(part: &Part) -> u64
    ensures { result ≡ length (values_of part.now) }
{
    match part {
        Part::Compact(list) => list.len(),
        Part::Parted(list) => list.len(),
        Part::Dict(list) => list.len(),
        Part::EliasFano(list) => list.len(),
    }
}

/// The value with an index.
pub fn part_get(part: &Part, i: u64) -> Option<u64>
    ensures { result ≡ slice_get (values_of part.now) i }
{
    match part {
        Part::Compact(list) => list.get(i),
        Part::Parted(list) => list.get(i),
        Part::Dict(list) => list.get(i),
        Part::EliasFano(list) => list.get(i),
    }
}

/// How many values at the front are below a bound.
pub fn part_below(part: &Part, bound: u64) -> u64
    ensures { result ≡ below_len bound (values_of part.now) }
{
    match part {
        Part::Compact(list) => list.below(bound),
        Part::Parted(list) => list.below(bound),
        Part::Dict(list) => {
            if list.is_within(bound) {
                return list.len();
            }
            below_by_each(part, bound)
        }
        Part::EliasFano(list) => {
            if list.is_within(bound) {
                return list.len();
            }
            below_by_each(part, bound)
        }
    }
}

// The same, by a look at each value.
fn below_by_each(part: &Part, bound: u64) -> u64
    ensures { result ≡ below_len bound (values_of part.now) }
{
    let len = part_len(part);
    for i in 0..len {
        let value = part_get(part, i).unwrap();
        if value >= bound {
            return i;
        }
    }
    len
}

/// Appends the spelling of a list; on want of memory a part of it.
pub fn put_part(part: &Part, out: &mut Vec<u8>) -> Result<(), NoMemory>
    ensures ok { OnOk result (out.new.items
        ≡ out.old.items ++ code_text (code_of part.now) (values_of part.now)) }
    ensures kept { take (length out.old.items) out.new.items ≡ out.old.items }
{
    match part {
        Part::Compact(list) => list.put(out),
        Part::Parted(list) => list.put(out),
        Part::Dict(list) => list.put(out),
        Part::EliasFano(list) => list.put(out),
    }
}

/// The list of a count under a code that bytes begin with, and the bytes after it.
pub fn read_part(
    alloc: Global,
    at: u64,
    count: u64,
    bytes: &[u8],
    code: Code,
) -> Result<(Part, &[u8]), ReadErr>
    requires few { count ≤ 2 ^ 30 }
    requires place { at + length bytes.now ≤ 2 ^ 63 }
    ensures values { Gives (λ x. (values_of x.0, x.1.now)) result
        (code_at code at count bytes.now) }
    ensures code { IfOk result (λ x. code_of x.0 ≡ code) }
    ensures short { TellsShort at result (code_at code at count bytes.now) }
{
    match code {
        Code::Compact => {
            let (list, rest) = Compact::read(alloc, at, count, bytes)?;
            Ok((Part::Compact(list), rest))
        }
        Code::Parted => {
            let (list, rest) = Parted::read(alloc, at, count, bytes)?;
            Ok((Part::Parted(list), rest))
        }
        Code::Dict => {
            let (list, rest) = Dict::read(alloc, at, count, bytes)?;
            Ok((Part::Dict(list), rest))
        }
        Code::EliasFano => {
            let (list, rest) = Sums::read(alloc, at, count, bytes)?;
            Ok((Part::EliasFano(list), rest))
        }
    }
}
