// The sums of the numbers up to each.
ghost use Rattle.std.specs.Prelude.{◌≡◌, ◌^◌, ◌<◌, ◌≤◌, ◌++◌, length, take, IfOk, OnOk, IsTrue};
ghost use Rattle.std.specs.List.{slice_get};
ghost use Rattle.elias_fano.specs.Spelling.{ef_text};
ghost use Rattle.elias_fano.specs.Values.{below_len};
ghost use Rattle.elias_fano.specs.Reading.{Gives, TellsShort};
ghost use Rattle.pilot_codecs.specs.Spelling.{greatest, sums_from};
ghost use Rattle.pilot_codecs.specs.Reading.{sums_at};

use bit_vector::NoMemory;
use elias_fano::{EliasFano, ReadErr, read_list};
use std::alloc::Global;
use std::marker::Model;

/// The sums of the numbers up to each.
#[derive(Drop)]
pub struct Sums {
    list: EliasFano,
}

impl Model for Sums {
    ghost use Rattle.std.specs.Prelude.{ℕ, List};
    ghost use Rattle.elias_fano.specs.Spelling.{IsRising};
    ghost use Rattle.pilot_codecs.specs.Reading.{steps_from};

    ghost Value = { List ℕ };

    ghost view = { λ s. steps_from 0 s.list };

    ghost invariant = { λ s. IsRising s.list };
}

// Each value added to those before it.
fn sums_of(alloc: Global, values: &[u64]) -> Result<Vec<u64>, NoMemory>
    requires few { length values.now ≤ 2 ^ 30 }
    requires small { greatest values.now < 2 ^ 32 }
    ensures { IfOk result (λ v. v.items ≡ sums_from 0 values.now) }
{
    let mut sums = Vec::with_capacity(alloc, values.len())?;
    let mut total = 0;
    for value in values {
        total += *value;
        sums.push(total)?;
    }
    Ok(sums)
}

impl Sums {
    /// The list of these values.
    pub fn encode(alloc: Global, values: &[u64]) -> Result<Sums, NoMemory>
        requires few { length values.now ≤ 2 ^ 30 }
        requires small { greatest values.now < 2 ^ 32 }
        ensures { IfOk result (λ s. s ≡ values.now) }
    {
        let sums = sums_of(alloc, values)?;
        let list = EliasFano::build(alloc, &sums)?;
        Ok(Sums { list })
    }

    /// How many values there are.
    pub fn len(&self) -> u64
        ensures { result ≡ length self.now }
    {
        self.list.len()
    }

    /// The value with an index.
    pub fn get(&self, i: u64) -> Option<u64>
        ensures { result ≡ slice_get self.now i }
    {
        if i >= self.list.len() {
            return None;
        }
        if i == 0 {
            return self.list.get(0);
        }
        let (before, sum) = self.list.pair(i - 1);
        Some(sum - before)
    }

    /// Whether the sum of all values is below a bound.
    pub fn is_within(&self, bound: u64) -> bool
        ensures { IsTrue result → below_len bound self.now ≡ length self.now }
    {
        self.list.below(bound) == self.list.len()
    }

    /// Appends the spelling; on want of memory a part of it.
    pub fn put(&self, out: &mut Vec<u8>) -> Result<(), NoMemory>
        ensures ok { OnOk result
            (out.new.items ≡ out.old.items ++ ef_text (sums_from 0 self.now)) }
        ensures kept { take (length out.old.items) out.new.items ≡ out.old.items }
    {
        self.list.write(out)?;
        Ok(())
    }

    /// The list of a count that bytes begin with, and the bytes after it.
    pub fn read(alloc: Global, at: u64, count: u64, bytes: &[u8]) -> Result<(Sums, &[u8]), ReadErr>
        requires few { count ≤ 2 ^ 30 }
        requires place { at ≤ 2 ^ 63 }
        ensures values { Gives (λ x. (x.0, x.1.now)) result (sums_at at count bytes.now) }
        ensures short { TellsShort at result (sums_at at count bytes.now) }
    {
        let (list, rest) = read_list(alloc, at, count, bytes)?;
        Ok((Sums { list }, rest))
    }
}
