// Bits in words: read, appended and looked at.
ghost use Rattle.std.specs.Prelude.{◌≡◌, ◌+◌, ◌*◌, ◌-◌, ◌/◌, ◌%◌, ◌^◌, ◌<◌, ◌≤◌, ◌++◌, ◌↔◌, length, take};
ghost use Rattle.std.specs.Prelude.{replicate, IfOk, IsTrue, OnOk, OnErr};
ghost use Rattle.std.specs.Prelude.{bit_or};
ghost use Rattle.bit_vector.specs.Bits.{words_number, bits_of_each, packed, IsPacked};

use crate::bits::NoMemory;
use std::alloc::{AllocError, AllocFailed, Global};

/// The lowest bits of a word.
pub fn low_bits(word: u64, width: u32) -> u64
    requires { width ≤ 64 }
    ensures { result ≡ word % 2 ^ width }
{
    if width < 64 {
        word & ((1 << width) - 1)
    } else {
        word
    }
}

/// The bits from a place on, at most 64, as a number.
pub fn bits_at(words: &[u64], at: usize, width: u32) -> u64
    requires wide { width ≤ 64 }
    requires within { at + width ≤ 64 * length words.now }
    ensures { result ≡ words_number words.now / 2 ^ at % 2 ^ width }
{
    if width == 0 {
        return 0;
    }
    let first = at / 64;
    let shift = at % 64;
    // The word of the last bit is read in any case, so that no branch depends on the place.
    let last = first + (shift + width as usize - 1) / 64;
    low_bits(joined(words[first], words[last], shift), width)
}

// The bits of a word from a place on, and above them the lowest bits of another.
fn joined(word: u64, above: u64, shift: usize) -> u64
    requires { shift < 64 }
    ensures { result ≡ bit_or (word / 2 ^ shift) (above * 2 ^ (64 - shift) % 2 ^ 64) }
{
    word >> shift | above << 1 << (63 - shift)
}

/// Whether the words are just those that so many bits take, with no unused bit set.
pub fn is_packed(words: &[u64], len: u64) -> bool
    ensures { IsTrue result ↔ IsPacked words.now len }
{
    if words.len() as u64 != len.div_ceil(64) {
        return false;
    }
    let used = (len % 64) as u32;
    if used == 0 {
        return true;
    }
    words[(len / 64) as usize] >> used == 0
}

/// So many words with no bit set.
pub fn clear_words(alloc: Global, count: usize) -> Result<Vec<u64>, AllocError>
    ensures { IfOk result (λ v. v.items ≡ replicate count 0) }
{
    vec![in alloc; 0; count]
}

/// Appends the lowest bits of a value to bits that are packed; on want of memory none.
pub fn append(
    words: &mut Vec<u64>,
    len: u64,
    value: u64,
    width: u32,
) -> Result<(), AllocFailed<u64>>
    requires packed { IsPacked words.old.items len }
    requires some { 0 < width }
    requires wide { width ≤ 64 }
    requires fits { value < 2 ^ width }
    ensures ok { OnOk result (words_number words.new.items
        ≡ words_number words.old.items + value * 2 ^ len) }
    ensures packed { OnOk result (IsPacked words.new.items (len + width)) }
    ensures err { OnErr result (words.new.items ≡ words.old.items) }
{
    let shift = (len % 64) as u32;
    if shift == 0 {
        words.push(value)?;
        return Ok(());
    }
    let last = (len / 64) as usize;
    if shift + width <= 64 {
        words[last] |= value << shift;
        return Ok(());
    }
    words.push(value >> (64 - shift))?;
    words[last] |= value << shift;
    Ok(())
}

/// Appends the lowest bits of each value, packed from a new word on; on want of memory none.
pub fn append_fields(words: &mut Vec<u64>, values: &[u64], width: u32) -> Result<(), NoMemory>
    requires { width ≤ 64 }
    ensures ok { OnOk result
        (words.new.items ≡ words.old.items ++ packed (bits_of_each width values.now)) }
    ensures kept { take (length words.old.items) words.new.items ≡ words.old.items }
    ensures err { OnErr result (words.new.items ≡ words.old.items) }
{
    let before = words.len();
    let appended = push_fields(words, values, width);
    if appended.is_err() {
        words.truncate(before);
    }
    appended
}

// The same; on want of memory a part of them.
fn push_fields(words: &mut Vec<u64>, values: &[u64], width: u32) -> Result<(), NoMemory>
    requires { width ≤ 64 }
    ensures ok { OnOk result
        (words.new.items ≡ words.old.items ++ packed (bits_of_each width values.now)) }
    ensures kept { take (length words.old.items) words.new.items ≡ words.old.items }
{
    // The bits that fill no word yet, and how many they are.
    let mut rest = 0;
    let mut used = 0;
    for value in values {
        let bits = low_bits(*value, width);
        let word = rest | bits << used;
        if used + width < 64 {
            rest = word;
            used += width;
        } else {
            words.push(word)?;
            used = used + width - 64;
            rest = top_bits(bits, width, used);
        }
    }
    if used > 0 {
        words.push(rest)?;
    }
    Ok(())
}

// The highest bits of a number of this width.
fn top_bits(bits: u64, width: u32, count: u32) -> u64
    requires wide { width ≤ 64 }
    requires fits { bits < 2 ^ width }
    requires within { count ≤ width }
    requires some_left { count < 64 }
    ensures { result ≡ bits / 2 ^ (width - count) }
{
    if count == 0 {
        0
    } else {
        bits >> (width - count)
    }
}
