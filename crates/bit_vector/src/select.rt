// Bits with the place of each one and the count of ones before a place.
ghost use Rattle.std.specs.Prelude.{◌≡◌, ◌≤◌, List, Bool, length, take, IfOk};
ghost use Rattle.std.specs.List.{slice_get};
ghost use Rattle.bit_vector.specs.Bits.{ones, places};

use crate::bits::{BitVec, NoMemory};
use crate::samples::{counts_of, next_one, ones_below, place_of, samples_of};
use std::alloc::Global;
use std::marker::Model;

/// Bits with the counts and places that make both questions cheap.
#[derive(Drop)]
pub struct Selector {
    bits: BitVec,
    counts: Vec<u64>,
    samples: Vec<u64>,
}

impl Model for Selector {
    ghost use Rattle.std.specs.Prelude.{◌^◌, ◌≤◌, List, Bool, length};
    ghost use Rattle.bit_vector.specs.Bits.{packed};
    ghost use Rattle.bit_vector.specs.Samples.{IsCounted, IsSampled};

    ghost Value = { List Bool };

    ghost view = { λ s. s.bits };

    ghost invariant = { λ s. IsCounted (packed s.bits) s.counts.items
        × IsSampled (packed s.bits) s.samples.items × (length s.bits ≤ 2 ^ 42) };
}

impl Selector {
    /// Takes the bits, and drops them on want of memory.
    pub fn new(alloc: Global, bits: BitVec) -> Result<Selector, NoMemory>
        ensures { IfOk result (λ s. s ≡ bits) }
    {
        let counts = counts_of(alloc, bits.words())?;
        let samples = samples_of(alloc, bits.words(), counts[counts.len() - 1])?;
        Ok(Selector {
            bits,
            counts,
            samples,
        })
    }

    /// The place of the one with a number, from 0.
    pub fn select1(&self, i: u64) -> Option<u64>
        ensures { result ≡ slice_get (places self.now) i }
    {
        place_of(self.bits.words(), &self.counts, &self.samples, i)
    }

    /// The place of the first one from a place on: after the one with a number, the next one.
    pub fn next1(&self, from: u64) -> Option<u64>
        requires { from ≤ length self.now }
        ensures { result ≡ slice_get (places self.now) (ones (take from self.now)) }
    {
        next_one(self.bits.words(), from)
    }

    /// How many ones stand below a place.
    pub fn rank1(&self, at: u64) -> u64
        requires { at ≤ length self.now }
        ensures { result ≡ ones (take at self.now) }
    {
        ones_below(self.bits.words(), &self.counts, at as usize)
    }

    /// The bits.
    pub fn bits(&self) -> &BitVec
        ensures { result.now ≡ self.now }
    {
        &self.bits
    }
}
