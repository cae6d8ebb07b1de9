// Groups of 256 numbers, each group in the width of its greatest.
ghost use Rattle.std.specs.Prelude.{◌≡◌, ◌+◌, ◌^◌, ◌≤◌, ◌++◌, length, take, IfOk, OnOk};
ghost use Rattle.std.specs.List.{slice_get, flat_map};
ghost use Rattle.elias_fano.specs.Values.{below_len};
ghost use Rattle.elias_fano.specs.Reading.{Gives, TellsShort};
ghost use Rattle.pilot_codecs.specs.Spelling.{parted_text};
ghost use Rattle.pilot_codecs.specs.Reading.{parted_at};

use crate::GROUP;
use crate::groups::{Groups, read_groups};
use bit_vector::NoMemory;
use elias_fano::ReadErr;
use std::alloc::Global;
use std::marker::Model;

/// Groups of 256 numbers, each group in the width of its greatest.
#[derive(Drop)]
pub struct Parted {
    count: u64,
    groups: Groups,
}

impl Model for Parted {
    ghost use Rattle.std.specs.Prelude.{ℕ, List};
    ghost use Rattle.std.specs.List.{flat_map};
    ghost use Rattle.pilot_codecs.specs.Parts.{IsParted};

    ghost Value = { List ℕ };

    ghost view = { λ p. flat_map (λ g. g) p.groups };

    ghost invariant = { λ p. IsParted p.count p.groups };
}

impl Parted {
    /// The list of these values.
    pub fn encode(alloc: Global, values: &[u64]) -> Result<Parted, NoMemory>
        requires { length values.now ≤ 2 ^ 30 }
        ensures { IfOk result (λ p. p ≡ values.now) }
    {
        let mut groups = Groups::new(alloc);
        let mut rest = values;
        while !rest.is_empty() {
            let (group, after) = rest.split_at(rest.len().min(GROUP as usize));
            groups.push(group)?;
            rest = after;
        }
        groups.shrink();
        Ok(Parted {
            count: values.len() as u64,
            groups,
        })
    }

    /// How many values there are.
    pub fn len(&self) -> u64
        ensures { result ≡ length self.now }
    {
        self.count
    }

    /// The value with an index.
    pub fn get(&self, i: u64) -> Option<u64>
        ensures { result ≡ slice_get self.now i }
    {
        if i >= self.count {
            return None;
        }
        Some(self.groups.get((i / GROUP) as usize, i % GROUP))
    }

    /// How many values at the front are below a bound.
    pub fn below(&self, bound: u64) -> u64
        ensures { result ≡ below_len bound self.now }
    {
        self.groups.below(bound)
    }

    /// Appends the spelling; on want of memory a part of it.
    pub fn put(&self, out: &mut Vec<u8>) -> Result<(), NoMemory>
        ensures ok { OnOk result (out.new.items ≡ out.old.items ++ parted_text self.now) }
        ensures kept { take (length out.old.items) out.new.items ≡ out.old.items }
    {
        self.groups.put(out)
    }

    /// The list of a count that bytes begin with, and the bytes after it.
    pub fn read(
        alloc: Global,
        at: u64,
        count: u64,
        bytes: &[u8],
    ) -> Result<(Parted, &[u8]), ReadErr>
        requires few { count ≤ 2 ^ 30 }
        requires place { at + length bytes.now ≤ 2 ^ 63 + 2 ^ 49 }
        ensures values { Gives (λ x. (x.0, x.1.now)) result (parted_at at count bytes.now) }
        ensures short { TellsShort at result (parted_at at count bytes.now) }
    {
        let (groups, rest) = read_groups(alloc, at, count, bytes)?;
        Ok((Parted { count, groups }, rest))
    }
}
