// Numbers and runs of bits from the front of bytes, and a whole list.
ghost use Rattle.std.specs.Prelude.{◌≡◌, ◌+◌, ◌*◌, ◌^◌, ◌<◌, ◌≤◌, ◌++◌, length, take, drop, OnOk, OnErr};
ghost use Rattle.std.specs.Int.{w64, from_le_bytes};
ghost use Rattle.elias_fano.specs.Spelling.{low_width, high_len};
ghost use Rattle.elias_fano.specs.declared.fault.ReadErr.TheVariants.{Form};
ghost use Rattle.elias_fano.specs.Reading.{Gives, TellsShort, HidesNoShort, LacksMemory, fault, number_at, words_in, run_at, checked, parts_at, list_at};

use crate::fault::{COUNT, FormFault, LAST, ORDER, PADDING, ReadErr, SHORT};
use crate::list::EliasFano;
use crate::parts::{do_end, do_rise, width_of};
use bit_vector::{BitVec, NoMemory, Selector};
use std::alloc::Global;

// The first fault.
fn form_fault(at: u64, kind: u8) -> ReadErr
    ensures { result ≡ Form (fault at kind) }
{
    ReadErr::Form(FormFault { at, kind })
}

// The number that begins at a place.
fn number_in(bytes: &[u8], at: usize) -> u64
    requires { at + 8 ≤ length bytes.now }
    ensures { result ≡ from_le_bytes w64 (take 8 (drop at bytes.now)) }
{
    let b = &bytes[at..at + 8];
    u64::from_le_bytes([b[0], b[1], b[2], b[3], b[4], b[5], b[6], b[7]])
}

/// The number that bytes begin with, where their place is known, and the bytes after it.
pub fn read_number(at: u64, bytes: &[u8]) -> Result<(u64, &[u8]), ReadErr>
    ensures value { Gives (λ x. (x.0, x.1.now)) result (number_at at bytes.now) }
    ensures memory { LacksMemory result → ⊥ }
{
    if bytes.len() < 8 {
        return Err(form_fault(at, SHORT));
    }
    Ok((number_in(bytes, 0), &bytes[8..]))
}

/// Appends as many numbers as are asked for; on want of memory none.
pub fn append_words(words: &mut Vec<u64>, bytes: &[u8], count: usize) -> Result<(), NoMemory>
    requires { 8 * count ≤ length bytes.now }
    ensures ok { OnOk result (words.new.items ≡ words.old.items ++ words_in count bytes.now) }
    ensures kept { take (length words.old.items) words.new.items ≡ words.old.items }
    ensures err { OnErr result (words.new.items ≡ words.old.items) }
    ensures memory { OnErr result (0 < count) }
{
    if count == 0 {
        return Ok(());
    }
    let before = words.len();
    let appended = push_words(words, bytes, count);
    if appended.is_err() {
        words.truncate(before);
    }
    appended
}

// The same; on want of memory a part of them.
fn push_words(words: &mut Vec<u64>, bytes: &[u8], count: usize) -> Result<(), NoMemory>
    requires { 8 * count ≤ length bytes.now }
    ensures ok { OnOk result (words.new.items ≡ words.old.items ++ words_in count bytes.now) }
    ensures kept { take (length words.old.items) words.new.items ≡ words.old.items }
{
    words.reserve(count)?;
    for i in 0..count {
        words.push(number_in(bytes, 8 * i))?;
    }
    Ok(())
}

// The bits of a run that bytes begin with, and the bytes after them.
fn run_of(alloc: Global, at: u64, len: u64, bytes: &[u8]) -> Result<(BitVec, &[u8]), ReadErr>
    requires most { len ≤ 2 ^ 42 }
    requires place { at ≤ 2 ^ 63 + 2 ^ 50 }
    ensures bits { Gives (λ x. (x.0, x.1.now)) result (run_at at len bytes.now) }
    ensures some { LacksMemory result → 0 < len }
    ensures memory { HidesNoShort result (run_at at len bytes.now) }
{
    let count = len.div_ceil(64);
    if (bytes.len() as u64) < 8 * count {
        return Err(form_fault(at, SHORT));
    }
    let mut words = Vec::new(alloc);
    append_words(&mut words, bytes, count as usize)?;
    match BitVec::from_words(words, len) {
        None => Err(form_fault(at + 8 * count - 8, PADDING)),
        Some(bits) => Ok((bits, &bytes[8 * count as usize..])),
    }
}

// The list of bits that are read: their ones, then the order, then the last value.
fn check(
    at: u64,
    high_at: u64,
    count: u64,
    last: u64,
    width: u32,
    low: BitVec,
    high: Selector,
) -> Result<EliasFano, ReadErr>
    requires few { count ≤ 2 ^ 36 }
    requires none { count ≡ 0 → last ≡ 0 }
    requires wide { width ≡ low_width count last }
    requires low_len { length low ≡ count * width }
    requires high_len_is { length high ≡ high_len count last width }
    requires place { at ≤ 2 ^ 63 + 2 ^ 50 }
    ensures { Gives (λ x. x) result (checked at high_at count last width low high) }
{
    let all = high.bits().len();
    if high.rank1(all) != count {
        return Err(form_fault(high_at, COUNT));
    }
    if !do_rise(&low, &high, width, count, last) {
        return Err(form_fault(at + 8, ORDER));
    }
    if !do_end(&low, &high, width, count, last) {
        return Err(form_fault(at, LAST));
    }
    Ok(EliasFano::from_parts(count, last, width, low, high))
}

// The low bits, the high bits and what they say.
fn parts_of(
    alloc: Global,
    at: u64,
    count: u64,
    last: u64,
    bytes: &[u8],
) -> Result<(EliasFano, &[u8]), ReadErr>
    requires few { count ≤ 2 ^ 36 }
    requires none { count ≡ 0 → last ≡ 0 }
    requires place { at ≤ 2 ^ 63 }
    ensures values { Gives (λ x. (x.0, x.1.now)) result
        (parts_at at count last (low_width count last) bytes.now) }
    ensures short { TellsShort at result (parts_at at count last (low_width count last) bytes.now) }
{
    let width = width_of(count, last);
    let low_len = count * u64::from(width);
    let high_at = at + 8 + 8 * low_len.div_ceil(64);
    let (low, rest) = run_of(alloc, at + 8, low_len, bytes)?;
    let (high, rest) = run_of(alloc, high_at, count + (last >> width) + 1, rest)?;
    let high = Selector::new(alloc, high)?;
    let list = check(at, high_at, count, last, width, low, high)?;
    Ok((list, rest))
}

/// The list of a count that bytes begin with, where their place is known, and the bytes after it.
pub fn read_list(
    alloc: Global,
    at: u64,
    count: u64,
    bytes: &[u8],
) -> Result<(EliasFano, &[u8]), ReadErr>
    requires few { count ≤ 2 ^ 36 }
    requires place { at ≤ 2 ^ 63 }
    ensures values { Gives (λ x. (x.0, x.1.now)) result (list_at at count bytes.now) }
    ensures short { TellsShort at result (list_at at count bytes.now) }
{
    let (last, rest) = read_number(at, bytes)?;
    if count == 0 && last != 0 {
        return Err(form_fault(at, LAST));
    }
    parts_of(alloc, at, count, last, rest)
}
