// Numbers in the width of the greatest.
ghost use Rattle.std.specs.Prelude.{◌≡◌, ◌+◌, ◌*◌, ◌^◌, ◌<◌, ◌≤◌, ◌++◌, ◌↔◌, length, take, drop, IfOk, OnOk, IsTrue};
ghost use Rattle.std.specs.Prelude.{ℕ, ◌||◌, false, get_or};
ghost use Rattle.std.specs.List.{slice_get, flat_map};
ghost use Rattle.elias_fano.specs.Spelling.{number, is_among};
ghost use Rattle.elias_fano.specs.Values.{below_len};
ghost use Rattle.elias_fano.specs.Reading.{Gives, HidesNoShort};
ghost use Rattle.pilot_codecs.specs.Spelling.{digits_of, greatest, compact_text};
ghost use Rattle.pilot_codecs.specs.Reading.{packed_at, compact_at, are_below};
ghost use Rattle.pilot_codecs.specs.Parts.{values_in, IsCompact};

use crate::walk::{count_below, mark_each};
use bit_vector::{NoMemory, append_fields, bits_at, is_packed};
use elias_fano::{
    FormFault, PADDING, ReadErr, SHORT, WIDTH, append_words, put_numbers, read_number,
};
use std::alloc::Global;
use std::marker::Model;

/// Numbers in the width of the greatest, packed into words.
#[derive(Drop)]
pub struct Compact {
    count: u64,
    width: u32,
    words: Vec<u64>,
}

impl Model for Compact {
    ghost use Rattle.std.specs.Prelude.{ℕ, List};
    ghost use Rattle.pilot_codecs.specs.Parts.{values_in, IsCompact};

    ghost Value = { List ℕ };

    ghost view = { λ c. values_in c.count c.width c.words.items };

    ghost invariant = { λ c. IsCompact c.count c.width c.words.items };
}

/// How many binary digits a number has, at least 1.
pub fn digits(n: u64) -> u32
    ensures value { result ≡ digits_of n }
    ensures most { result ≤ 64 }
{
    if n == 0 { 1 } else { n.ilog2() + 1 }
}

/// The greatest value, 0 if there is none.
pub fn greatest_of(values: &[u64]) -> u64
    ensures { result ≡ greatest values.now }
{
    let mut most = 0;
    for value in values {
        most = most.max(*value);
    }
    most
}

// Whether a width is that of the greatest field: it is 1, or some field has its top bit set.
fn is_width_of(words: &[u64], count: u64, width: u32) -> bool
    requires few { count ≤ 2 ^ 30 }
    requires some { 0 < width }
    requires wide { width ≤ 64 }
    requires room { count * width ≤ 64 * length words.now }
    ensures { IsTrue result ↔ digits_of (greatest (values_in count width words.now)) ≡ width }
{
    if width == 1 {
        return true;
    }
    let step = width as usize;
    // The place of the top bit.
    let mut at = step - 1;
    for _ in 0..count {
        if bits_at(words, at, 1) == 1 {
            return true;
        }
        at += step;
    }
    false
}

/// How many of the fields of words are below a bound, up to the first that isn't: all at once where
/// no number of that width reaches it.
pub fn below_in(words: &[u64], count: u64, width: u32, bound: u64) -> u64
    requires { IsCompact count width words.now }
    ensures { result ≡ below_len bound (values_in count width words.now) }
{
    if is_narrow(width, bound) {
        return count;
    }
    count_below(words, count, width, bound)
}

// Whether no number of a width reaches a bound.
fn is_narrow(width: u32, bound: u64) -> bool
    ensures { IsTrue result → 2 ^ width ≤ bound }
{
    if width >= 64 {
        return false;
    }
    1 << width <= bound
}

/// Appends the words of values, from a new one on, and gives the width; on want of memory a part of them.
pub fn append_values(words: &mut Vec<u64>, values: &[u64]) -> Result<u32, NoMemory>
    requires { length values.now ≤ 2 ^ 30 }
    ensures compact { IfOk result (λ w. IsCompact (length values.now) w
        (drop (length words.old.items) words.new.items)) }
    ensures values { IfOk result (λ w. values_in (length values.now) w
        (drop (length words.old.items) words.new.items) ≡ values.now) }
    ensures kept { take (length words.old.items) words.new.items ≡ words.old.items }
{
    let width = digits(greatest_of(values));
    let len = values.len() as u64 * u64::from(width);
    words.reserve(len.div_ceil(64) as usize)?;
    append_fields(words, values, width)?;
    Ok(width)
}

/// Appends the spelling of values that are kept so; on want of memory a part of it.
pub fn put_values(out: &mut Vec<u8>, width: u32, words: &[u64]) -> Result<(), NoMemory>
    ensures ok { OnOk result (out.new.items
        ≡ out.old.items ++ (number width ++ flat_map number words.now)) }
    ensures kept { take (length out.old.items) out.new.items ≡ out.old.items }
{
    put_numbers(out, &[u64::from(width)])?;
    put_numbers(out, words)?;
    Ok(())
}

/// Appends the words of the values that bytes begin with, from a new one on, and gives their width
/// and the bytes after them; after an error it may have appended some words.
pub fn read_values<'a>(
    words: &mut Vec<u64>,
    at: u64,
    count: u64,
    bytes: &'a [u8],
) -> Result<(u32, &'a [u8]), ReadErr>
    requires few { count ≤ 2 ^ 30 }
    requires place { at ≤ 2 ^ 63 + 2 ^ 50 }
    ensures values { Gives (λ x. (
      values_in count x.0 (drop (length words.old.items) words.new.items),
      x.1.now,
    )) result (compact_at at count bytes.now) }
    ensures memory { HidesNoShort result (compact_at at count bytes.now) }
    ensures compact { IfOk result (λ x. IsCompact count x.0
        (drop (length words.old.items) words.new.items)) }
    ensures kept { take (length words.old.items) words.new.items ≡ words.old.items }
{
    let (width, rest) = read_number(at, bytes)?;
    if width == 0 || width > 64 {
        return Err(ReadErr::Form(FormFault { at, kind: WIDTH }));
    }
    let after = read_packed(words, at, count, width as u32, rest)?;
    Ok((width as u32, after))
}

// The same behind the width.
fn read_packed<'a>(
    words: &mut Vec<u64>,
    at: u64,
    count: u64,
    width: u32,
    bytes: &'a [u8],
) -> Result<&'a [u8], ReadErr>
    requires few { count ≤ 2 ^ 30 }
    requires some { 0 < width }
    requires wide { width ≤ 64 }
    requires place { at ≤ 2 ^ 63 + 2 ^ 50 }
    ensures values { Gives (λ x. (
      values_in count width (drop (length words.old.items) words.new.items),
      x.now,
    )) result (packed_at at count width bytes.now) }
    ensures memory { HidesNoShort result (packed_at at count width bytes.now) }
    ensures compact { OnOk result (IsCompact count width
        (drop (length words.old.items) words.new.items)) }
    ensures kept { take (length words.old.items) words.new.items ≡ words.old.items }
{
    let len = count * u64::from(width);
    let size = len.div_ceil(64);
    if (bytes.len() as u64) < 8 * size {
        return Err(ReadErr::Form(FormFault {
            at: at + 8,
            kind: SHORT,
        }));
    }
    let start = words.len();
    append_words(words, bytes, size as usize)?;
    let read = &words[start..];
    if !is_width_of(read, count, width) {
        return Err(ReadErr::Form(FormFault { at, kind: WIDTH }));
    }
    if !is_packed(read, len) {
        return Err(ReadErr::Form(FormFault {
            at: at + 8 + 8 * size - 8,
            kind: PADDING,
        }));
    }
    Ok(&bytes[8 * size as usize..])
}

impl Compact {
    /// The list of these values.
    pub fn encode(alloc: Global, values: &[u64]) -> Result<Compact, NoMemory>
        requires { length values.now ≤ 2 ^ 30 }
        ensures { IfOk result (λ c. c ≡ values.now) }
    {
        let mut words = Vec::new(alloc);
        let width = append_values(&mut words, values)?;
        Ok(Compact {
            count: values.len() as u64,
            width,
            words,
        })
    }

    /// How many values there are.
    pub fn len(&self) -> u64
        ensures { result ≡ length self.now }
    {
        self.count
    }

    /// The value with an index.
    pub fn get(&self, i: u64) -> Option<u64>
        ensures { result ≡ slice_get self.now i }
    {
        if i >= self.count {
            return None;
        }
        let place = i * u64::from(self.width);
        Some(bits_at(&self.words, place as usize, self.width))
    }

    /// How many values at the front are below a bound.
    pub fn below(&self, bound: u64) -> u64
        ensures { result ≡ below_len bound self.now }
    {
        below_in(&self.words, self.count, self.width, bound)
    }

    /// Sets the mark of each value, up to the first without one, and says whether each has one.
    pub fn mark(&self, marks: &mut [bool]) -> bool
        ensures value { result ≡ are_below (length marks.old) self.now }
        ensures marks { IsTrue result → (d : ℕ) → d < length marks.old →
            get_or marks.new d false ≡ (get_or marks.old d false || is_among d self.now) }
    {
        mark_each(marks, &self.words, self.count, self.width)
    }

    /// Appends the spelling; on want of memory a part of it.
    pub fn put(&self, out: &mut Vec<u8>) -> Result<(), NoMemory>
        ensures ok { OnOk result (out.new.items ≡ out.old.items ++ compact_text self.now) }
        ensures kept { take (length out.old.items) out.new.items ≡ out.old.items }
    {
        put_values(out, self.width, &self.words)
    }

    /// The list of a count that bytes begin with, and the bytes after it.
    pub fn read(
        alloc: Global,
        at: u64,
        count: u64,
        bytes: &[u8],
    ) -> Result<(Compact, &[u8]), ReadErr>
        requires few { count ≤ 2 ^ 30 }
        requires place { at ≤ 2 ^ 63 + 2 ^ 50 }
        ensures values { Gives (λ x. (x.0, x.1.now)) result (compact_at at count bytes.now) }
        ensures memory { HidesNoShort result (compact_at at count bytes.now) }
    {
        let mut words = Vec::new(alloc);
        let (width, rest) = read_values(&mut words, at, count, bytes)?;
        Ok((
            Compact {
                count,
                width,
                words,
            },
            rest,
        ))
    }
}
