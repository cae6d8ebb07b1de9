// A list of numbers that don't fall.
ghost use Rattle.std.specs.Prelude.{◌≡◌, ◌+◌, ◌^◌, ◌<◌, ◌≤◌, ◌++◌, ℕ, List, true, length, drop, slice_index, IfOk, OnOk, OnErr};
ghost use Rattle.std.specs.List.{slice_get};
ghost use Rattle.elias_fano.specs.Spelling.{rises, ef_text, IsRising};
ghost use Rattle.elias_fano.specs.Values.{values_of, below_len, AreValues};
ghost use Rattle.elias_fano.specs.Reading.{Gives, TellsShort, list_at, IsSpelled};

use crate::build::{high_part, last_value};
use crate::fault::ReadErr;
use crate::parts::{part_at, two_parts, width_of};
use crate::reading::read_list;
use crate::writing::put_list;
use bit_vector::{BitVec, NoMemory, Selector};
use std::alloc::Global;
use std::marker::Model;

/// At most 2^36 numbers that don't fall, each to be read at once, in about two bits a number and the
/// digits of the mean step (Elias 1974, Fano 1971).
#[derive(Drop)]
pub struct EliasFano {
    count: u64,
    last: u64,
    width: u32,
    low: BitVec,
    high: Selector,
}

impl Model for EliasFano {
    ghost use Rattle.std.specs.Prelude.{ℕ, List};
    ghost use Rattle.elias_fano.specs.Values.{values_of, AreValues};

    ghost Value = { List ℕ };

    ghost view = { λ e. values_of e.width e.low e.high };

    ghost invariant = { λ e. AreValues e.count e.last e.width e.low e.high };
}

impl EliasFano {
    pub(crate) fn from_parts(
        count: u64,
        last: u64,
        width: u32,
        low: BitVec,
        high: Selector,
    ) -> EliasFano
        requires { AreValues count last width low high }
        ensures { result ≡ values_of width low high }
    {
        EliasFano {
            count,
            last,
            width,
            low,
            high,
        }
    }

    /// The list of these values.
    pub fn build(alloc: Global, values: &[u64]) -> Result<EliasFano, NoMemory>
        requires rising { rises 0 values.now ≡ true }
        requires few { length values.now ≤ 2 ^ 36 }
        ensures { IfOk result (λ e. e ≡ values.now) }
    {
        let count = values.len() as u64;
        let last = last_value(values);
        let width = width_of(count, last);
        let low = BitVec::from_fields(alloc, values, width)?;
        let high = Selector::new(alloc, high_part(alloc, values, width)?)?;
        Ok(EliasFano::from_parts(count, last, width, low, high))
    }

    /// The value with an index.
    pub fn get(&self, i: u64) -> Option<u64>
        ensures { result ≡ slice_get self.now i }
    {
        if i >= self.count {
            return None;
        }
        let (high, low) = part_at(&self.low, &self.high, self.width, self.count, self.last, i);
        Some(high << self.width | low)
    }

    /// The value with an index and the next one, for little more than one of them.
    pub fn pair(&self, i: u64) -> (u64, u64)
        requires { i + 1 < length self.now }
        ensures value { result.0 ≡ slice_index self.now i }
        ensures next { result.1 ≡ slice_index self.now (i + 1) }
    {
        let ((high, low), (next, next_low)) = two_parts(
            &self.low, &self.high, self.width, self.count, self.last, i,
        );
        (high << self.width | low, next << self.width | next_low)
    }

    /// How many values at the front are below a bound: all of them at once where the last one is.
    pub fn below(&self, bound: u64) -> u64
        ensures { result ≡ below_len bound self.now }
    {
        if self.count == 0 || self.last < bound {
            return self.count;
        }
        below_by_halves(self, self.count, bound)
    }

    /// How many values there are.
    pub fn len(&self) -> u64
        ensures value { result ≡ length self.now }
        ensures rising { IsRising self.now }
    {
        self.count
    }

    /// Appends the spelling; on want of memory nothing.
    pub fn write(&self, out: &mut Vec<u8>) -> Result<(), NoMemory>
        ensures ok { OnOk result (out.new.items ≡ out.old.items ++ ef_text self.now) }
        ensures err { OnErr result (out.new.items ≡ out.old.items) }
    {
        let start = out.len();
        let written = put_list(out, self.last, &self.low, self.high.bits());
        if written.is_err() {
            out.truncate(start);
        }
        written
    }

    /// The list of a count whose spelling stands at a place, and the place after it. Places, that of a
    /// fault too, are those of the slice that is handed in, which may begin and end inside a file.
    pub fn read(
        alloc: Global,
        bytes: &[u8],
        at: usize,
        count: u64,
    ) -> Result<(EliasFano, usize), ReadErr>
        requires within { at ≤ length bytes.now }
        requires few { count ≤ 2 ^ 36 }
        // What is read is a list of that count, and its spelling stands there.
        ensures found { IfOk result (λ x. IsSpelled bytes.now at count x.0 x.1) }
        // What is spelled there is read, unless memory runs out.
        ensures only { (vs : List ℕ) (next : ℕ) → IsSpelled bytes.now at count vs next
            → Gives {Y = List ℕ × ℕ} (λ x. (x.0, x.1)) result (Ok (vs, next)) }
        // No other list of that count is spelled there, so no spelling begins another of the same count.
        ensures one { (vs us : List ℕ) (m n : ℕ) → IsSpelled bytes.now at count vs m
            → IsSpelled bytes.now at count us n → (vs ≡ us) × (m ≡ n) }
        // Which fault it is: the first one.
        ensures exact { Gives (λ x. (x.0, drop x.1 bytes.now)) result
            (list_at at count (drop at bytes.now)) }
        // Too few bytes are told before memory is taken.
        ensures short { TellsShort at result (list_at at count (drop at bytes.now)) }
    {
        let rest = &bytes[at..];
        let (list, rest) = read_list(alloc, at as u64, count, rest)?;
        Ok((list, bytes.len() - rest.len()))
    }
}

// How many values at the front are below a bound.
fn below_by_halves(list: &EliasFano, count: u64, bound: u64) -> u64
    requires all { count ≡ length list.now }
    requires rising { rises 0 list.now ≡ true }
    ensures { result ≡ below_len bound list.now }
{
    let mut first = 0;
    let mut end = count;
    while first < end {
        let middle = first + (end - first) / 2;
        let value = list.get(middle).unwrap();
        if value < bound {
            first = middle + 1;
        } else {
            end = middle;
        }
    }
    first
}
