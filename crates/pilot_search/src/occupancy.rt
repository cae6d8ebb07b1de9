// Which positions of a table are taken: a bit for each.

ghost use Rattle.std.specs.Prelude.{◌≡◌, ℕ, ◌+◌, ◌*◌, ◌<◌, ◌≤◌, true, ◌==◌, nat_lt, IfOk};
ghost use Rattle.std.specs.Int.{bit_at};
ghost use Rattle.std.specs.List.{list_all};
ghost use Rattle.std.specs.FinSet as set;
ghost use Rattle.pthash.specs.declared.TheConstants.{MAX_POSITIONS};

use crate::bits::{is_set, set_bit};
use bucket_map::NoMemory;
use std::alloc::Global;
use std::marker::Model;

/// Which positions of a table are taken.
#[derive(Drop)]
pub struct Occupancy {
    words: Vec<u64>,
    size: u64,
    count: u64,
}

impl Model for Occupancy {
    ghost use Rattle.word_bits.specs.Bits.{is_set};
    ghost use Rattle.pthash.specs.Search.{set_of};
    ghost use Rattle.pilot_search.specs.Table.{Table, IsTable, table_code};

    ghost Value = { Table };

    ghost coded = { table_code };

    ghost view = { λ a. record { size = a.size; taken = set_of a.size (is_set a.words.items 0) } };

    ghost invariant = { λ a. IsTable a.words.items a.size a.count };
}

impl Occupancy {
    /// A table of this size with no position taken.
    pub fn new(alloc: Global, size: u64) -> Result<Self, NoMemory>
        requires some { 1 ≤ size }
        requires bound { size ≤ MAX_POSITIONS }
        ensures size { IfOk result (λ table. table.size ≡ size) }
        ensures taken { IfOk result (λ table. table.taken ≡ set.empty) }
    {
        let words = vec![in alloc; 0; (size / 64 + 1) as usize]?;
        Ok(Self {
            words,
            size,
            count: 0,
        })
    }

    /// The number of positions, taken or not.
    #[inline]
    pub fn size(&self) -> u64
        ensures value { result ≡ self.now.size }
        ensures positive { 1 ≤ result }
        ensures bound { result ≤ MAX_POSITIONS }
    {
        self.size
    }

    /// How many positions are taken.
    pub fn count(&self) -> u64
        ensures number { result ≡ set.len self.now.taken }
        ensures bound { result ≤ self.now.size }
    {
        self.count
    }

    /// Whether the position is taken.
    #[inline]
    pub fn contains(&self, position: u64) -> bool
        requires { position < self.now.size }
        ensures { result ≡ set.contains self.now.taken position }
    {
        is_set(&self.words, position)
    }

    // Takes a position, which may be taken already.
    #[inline]
    pub(crate) fn take(&mut self, position: u64)
        requires { position < self.old.size }
        ensures size { self.new.size ≡ self.old.size }
        ensures taken { self.new.taken ≡ set.insert self.old.taken position }
    {
        if !is_set(&self.words, position) {
            set_bit(&mut self.words, position);
            self.count += 1;
        }
    }

    // Takes positions, all of them below the size.
    pub(crate) fn take_all(&mut self, positions: &[u64])
        requires { list_all (λ p. nat_lt p self.old.size) positions.now ≡ true }
        ensures size { self.new.size ≡ self.old.size }
        ensures taken { self.new.taken ≡ set.union self.old.taken (set.from_list positions.now) }
    {
        for position in positions {
            self.take(*position);
        }
    }

    /// Which of the positions from 64 times `i` on are taken: a bit of the word for each, the lowest first.
    #[inline]
    pub fn word(&self, i: u64) -> u64
        requires { 64 * i < self.now.size }
        ensures { (k : ℕ) → k < 64 → 64 * i + k < self.now.size →
            (bit_at result k == 1) ≡ set.contains self.now.taken (64 * i + k) }
    {
        self.words[i as usize]
    }
}
