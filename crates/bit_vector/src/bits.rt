// A list of bits, packed into words.
ghost use Rattle.std.specs.Prelude.{◌≡◌, ◌+◌, ◌*◌, ◌^◌, ◌<◌, ◌≤◌, ◌++◌, ◌↔◌, List, [], Bool, true, false, length, take};
ghost use Rattle.std.specs.Prelude.{drop, replicate, slice_index_or, slice_set, OnOk, OnErr, IfOk, IfSome, IsSome};
ghost use Rattle.bit_vector.specs.Bits.{bits_of, bits_of_each, number_of, words_number, packed, IsPacked};

use crate::words::{append, append_fields, bits_at, clear_words, is_packed, low_bits};
use std::alloc::{AllocError, AllocFailed, Global};
use std::marker::Model;

/// Memory ran out.
#[derive(Clone, Copy, Debug, PartialEq, Eq)]
pub struct NoMemory;

impl From<AllocError> for NoMemory {
    fn from(_e: AllocError) -> NoMemory {
        NoMemory
    }
}

impl<T: Drop> From<AllocFailed<T>> for NoMemory {
    fn from(_e: AllocFailed<T>) -> NoMemory {
        NoMemory
    }
}

/// A list of at most 2^42 bits, packed lowest first into words.
#[derive(Drop)]
pub struct BitVec {
    words: Vec<u64>,
    len: u64,
}

impl Model for BitVec {
    ghost use Rattle.std.specs.Prelude.{◌^◌, ◌≤◌, List, Bool};
    ghost use Rattle.bit_vector.specs.Bits.{bits_of, words_number, IsPacked};

    ghost Value = { List Bool };

    ghost view = { λ v. bits_of v.len (words_number v.words.items) };

    ghost invariant = { λ v. IsPacked v.words.items v.len × (v.len ≤ 2 ^ 42) };
}

impl BitVec {
    /// No bits yet.
    pub fn new(alloc: Global) -> BitVec
        ensures { result ≡ [] }
    {
        BitVec {
            words: Vec::new(alloc),
            len: 0,
        }
    }

    /// Clear bits.
    pub fn zeros(alloc: Global, len: u64) -> Result<BitVec, NoMemory>
        requires { len ≤ 2 ^ 42 }
        ensures { IfOk result (λ b. b ≡ replicate len false) }
    {
        let words = clear_words(alloc, len.div_ceil(64) as usize)?;
        Ok(BitVec { words, len })
    }

    /// The lowest bits of each value, one value after the other.
    pub fn from_fields(alloc: Global, values: &[u64], width: u32) -> Result<BitVec, NoMemory>
        requires wide { width ≤ 64 }
        requires room { length values.now * width ≤ 2 ^ 42 }
        ensures { IfOk result (λ b. b ≡ bits_of_each width values.now) }
    {
        let len = values.len() as u64 * u64::from(width);
        let mut words = Vec::with_capacity(alloc, len.div_ceil(64) as usize)?;
        append_fields(&mut words, values, width)?;
        Ok(BitVec { words, len })
    }

    /// How many bits there are.
    pub fn len(&self) -> u64
        ensures value { result ≡ length self.now }
        ensures most { result ≤ 2 ^ 42 }
    {
        self.len
    }

    /// The words, the unused bits of the last one 0.
    pub fn words(&self) -> &[u64]
        ensures { result.now ≡ packed self.now }
    {
        &self.words
    }

    /// Appends the lowest bits of a value, the lowest first; on want of memory none.
    pub fn push_bits(&mut self, value: u64, width: u32) -> Result<(), NoMemory>
        requires wide { width ≤ 64 }
        requires fits { value < 2 ^ width }
        requires room { length self.old + width ≤ 2 ^ 42 }
        ensures ok { OnOk result (self.new ≡ self.old ++ bits_of width value) }
        ensures err { OnErr result (self.new ≡ self.old) }
    {
        if width == 0 {
            return Ok(());
        }
        append(&mut self.words, self.len, value, width)?;
        self.len += u64::from(width);
        Ok(())
    }

    /// Sets the bit at a place.
    pub fn set(&mut self, at: u64)
        requires { at < length self.old }
        ensures { self.new ≡ slice_set self.old at true }
    {
        self.words[(at / 64) as usize] |= 1 << (at % 64);
    }

    /// The bits from a place on as a number, the lowest first.
    pub fn get_bits(&self, at: u64, width: u32) -> u64
        requires wide { width ≤ 64 }
        requires within { at + width ≤ length self.now }
        ensures { result ≡ number_of (take width (drop at self.now)) }
    {
        bits_at(&self.words, at as usize, width)
    }

    /// Two fields of one width, side by side from a place on, by one read.
    pub fn get_two(&self, at: u64, width: u32) -> (u64, u64)
        requires wide { width ≤ 32 }
        requires within { at + 2 * width ≤ length self.now }
        ensures first { result.0 ≡ number_of (take width (drop at self.now)) }
        ensures second { result.1 ≡ number_of (take width (drop (at + width) self.now)) }
    {
        let both = self.get_bits(at, 2 * width);
        (low_bits(both, width), both >> width)
    }

    /// The bit at a place.
    pub fn get(&self, at: u64) -> bool
        requires { at < length self.now }
        ensures { result ≡ slice_index_or self.now at false }
    {
        bits_at(&self.words, at as usize, 1) == 1
    }

    /// The first bits of these words, if they take just these words and no unused bit is set.
    pub fn from_words(words: Vec<u64>, len: u64) -> Option<BitVec>
        requires { len ≤ 2 ^ 42 }
        ensures some { IsSome result ↔ IsPacked words.items len }
        ensures value { IfSome result (λ v. v ≡ bits_of len (words_number words.items)) }
    {
        if !is_packed(&words, len) {
            return None;
        }
        Some(BitVec { words, len })
    }
}
