// The keys of a file, in memory.
ghost use Rattle.std.specs.Prelude.{◌≡◌, ◌≤◌, ◌<◌, ◌++◌, ◌∷◌, [], length, OnOk, OnErr, Some, slice_get};
ghost use Rattle.pth_outside.specs.KeyBytes.{begin_at};

use crate::{LONGEST_KEY, NoMemory};
use std::alloc::Global;
use std::marker::Model;

/// Keys in their order, in one buffer.
#[derive(Drop)]
pub struct KeyList {
    bytes: Vec<u8>,
    ends: Vec<usize>,
}

impl Model for KeyList {
    ghost use Rattle.std.specs.Prelude.{List, ℕ, length};
    ghost use Rattle.pth_outside.specs.KeyBytes.{cut_at, AreEnds};

    ghost Value = { List (List ℕ) };

    ghost view = { λ k. cut_at 0 k.ends.items k.bytes.items };

    ghost invariant = { λ k. AreEnds 0 k.ends.items (length k.bytes.items) };
}

// Where a key begins: at the end of the one before it.
fn begin_of(ends: &[usize], place: usize) -> usize
    requires { place < length ends.now }
    ensures { result ≡ begin_at 0 ends.now place }
{
    if place == 0 { 0 } else { ends[place - 1] }
}

impl KeyList {
    /// No keys.
    pub fn new(alloc: Global) -> Self
        ensures { result ≡ [] }
    {
        KeyList {
            bytes: Vec::new(alloc),
            ends: Vec::new(alloc),
        }
    }

    /// Puts a key at the end.
    pub fn push(&mut self, key: &[u8]) -> Result<(), NoMemory>
        requires { length key.now ≤ LONGEST_KEY }
        ensures ok { OnOk result (self.new ≡ self.old ++ key.now ∷ []) }
        ensures err { OnErr result (self.new ≡ self.old) }
    {
        let start = self.bytes.len();
        self.bytes.extend_from_slice(key)?;
        let end = self.bytes.len();
        match self.ends.push(end) {
            Ok(()) => Ok(()),
            Err(failed) => {
                self.bytes.truncate(start);
                Err(NoMemory::from(failed))
            }
        }
    }

    /// The number of keys.
    pub fn len(&self) -> u64
        ensures { result ≡ length self.now }
    {
        self.ends.len() as u64
    }

    /// The key at a place, counted from 0.
    pub fn key(&self, i: u64) -> &[u8]
        requires { i < length self.now }
        ensures key { slice_get self.now i ≡ Some result.now }
        ensures short { length result.now ≤ LONGEST_KEY }
    {
        let place = i as usize;
        let start = begin_of(&self.ends, place);
        let end = self.ends[place];
        &self.bytes[start..end]
    }
}
