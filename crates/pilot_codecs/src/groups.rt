// Lists of numbers, each in the width of its greatest, with their words in one buffer.
ghost use Rattle.std.specs.Prelude.{◌≡◌, ◌+◌, ◌*◌, ◌^◌, ◌<◌, ◌≤◌, ◌++◌, [], ◌∷◌, length, take, slice_index};
ghost use Rattle.std.specs.Prelude.{slice_index_or, OnOk, OnErr};
ghost use Rattle.std.specs.List.{flat_map};
ghost use Rattle.bit_vector.specs.Bits.{words_for};
ghost use Rattle.elias_fano.specs.Values.{below_len};
ghost use Rattle.elias_fano.specs.Reading.{Gives, HidesNoShort, TellsShort};
ghost use Rattle.pilot_codecs.specs.Spelling.{compact_text, groups_for};
ghost use Rattle.pilot_codecs.specs.Reading.{compact_at, groups_at};
ghost use Rattle.pilot_codecs.specs.Parts.{words_under, group_more_at};

use crate::GROUP;
use crate::compact::{append_values, below_in, put_values, read_values};
use bit_vector::{NoMemory, bits_at};
use elias_fano::ReadErr;
use std::alloc::Global;
use std::marker::Model;

/// How many values a group has, in which width, and where its words begin.
#[derive(Clone, Copy)]
pub struct Head {
    count: u32,
    width: u32,
    start: usize,
}

/// Lists of numbers, each in the width of its greatest, with the words of all of them in one buffer.
#[derive(Drop)]
pub struct Groups {
    heads: Vec<Head>,
    words: Vec<u64>,
}

impl Model for Groups {
    ghost use Rattle.std.specs.Prelude.{ℕ, List, map};
    ghost use Rattle.pilot_codecs.specs.Parts.{group_in, AreGroups};

    ghost Value = { List (List ℕ) };

    ghost view = { λ g. map (group_in g.words.items) g.heads.items };

    ghost invariant = { λ g. AreGroups g.words.items g.heads.items };
}

// The words of a group.
fn words_of(words: &[u64], head: Head) -> &[u64]
    requires { head.start + words_for (head.count * head.width) ≤ length words.now }
    ensures { result.now ≡ words_under words.now head }
{
    let len = u64::from(head.count) * u64::from(head.width);
    &words[head.start..head.start + len.div_ceil(64) as usize]
}

impl Groups {
    /// No groups yet.
    pub fn new(alloc: Global) -> Groups
        ensures { result ≡ [] }
    {
        Groups {
            heads: Vec::new(alloc),
            words: Vec::new(alloc),
        }
    }

    /// Appends a group of these values; on want of memory none.
    pub fn push(&mut self, values: &[u64]) -> Result<(), NoMemory>
        requires { length values.now ≤ 2 ^ 30 }
        ensures ok { OnOk result (self.new ≡ self.old ++ values.now ∷ []) }
        ensures err { OnErr result (self.new ≡ self.old) }
    {
        let start = self.words.len();
        let width = append_values(&mut self.words, values)?;
        self.heads.push(Head {
            count: values.len() as u32,
            width,
            start,
        })?;
        Ok(())
    }

    /// Gives back the memory that the groups do not take.
    pub fn shrink(&mut self)
        ensures { self.new ≡ self.old }
    {
        self.heads.shrink_to_fit();
        self.words.shrink_to_fit();
    }

    /// A value of a group.
    pub fn get(&self, group: usize, i: u64) -> u64
        requires { i < length (slice_index_or self.now group []) }
        ensures { result ≡ slice_index (slice_index_or self.now group []) i }
    {
        let head = self.heads[group];
        let place = i * u64::from(head.width);
        bits_at(words_of(&self.words, head), place as usize, head.width)
    }

    /// How many values at the front are below a bound: a group whose width can't reach it is passed
    /// without a look.
    pub fn below(&self, bound: u64) -> u64
        requires { length (flat_map (λ g. g) self.now) ≤ 2 ^ 30 }
        ensures { result ≡ below_len bound (flat_map (λ g. g) self.now) }
    {
        let mut passed = 0;
        for head in &self.heads {
            let count = u64::from(head.count);
            let below = below_in(words_of(&self.words, *head), count, head.width, bound);
            passed += below;
            if below < count {
                return passed;
            }
        }
        passed
    }

    /// Appends the spelling of each group; on want of memory a part of it.
    pub fn put(&self, out: &mut Vec<u8>) -> Result<(), NoMemory>
        ensures ok { OnOk result (out.new.items
            ≡ out.old.items ++ flat_map compact_text self.now) }
        ensures kept { take (length out.old.items) out.new.items ≡ out.old.items }
    {
        for head in &self.heads {
            put_values(out, head.width, words_of(&self.words, *head))?;
        }
        Ok(())
    }

    /// Appends the group of a count of values that bytes begin with, and gives the bytes after it.
    pub fn read_more<'a>(
        &mut self,
        at: u64,
        count: u64,
        bytes: &'a [u8],
    ) -> Result<&'a [u8], ReadErr>
        requires few { count ≤ 2 ^ 30 }
        requires place { at ≤ 2 ^ 63 + 2 ^ 50 }
        ensures groups { Gives (λ x. (self.new, x.now)) result
            (group_more_at self.old at count bytes.now) }
        ensures memory { HidesNoShort result (compact_at at count bytes.now) }
        ensures err { OnErr result (self.new ≡ self.old) }
    {
        let start = self.words.len();
        let (width, rest) = read_values(&mut self.words, at, count, bytes)?;
        self.heads.push(Head {
            count: count as u32,
            width,
            start,
        })?;
        Ok(rest)
    }
}

/// The groups of a count of values that bytes begin with, and the bytes after them.
pub fn read_groups(
    alloc: Global,
    at: u64,
    count: u64,
    bytes: &[u8],
) -> Result<(Groups, &[u8]), ReadErr>
    requires few { count ≤ 2 ^ 30 }
    requires place { at + length bytes.now ≤ 2 ^ 63 + 2 ^ 49 }
    ensures values { Gives (λ x. (x.0, x.1.now)) result
        (groups_at (groups_for count) at count bytes.now) }
    ensures short { TellsShort at result (groups_at (groups_for count) at count bytes.now) }
{
    let mut groups = Groups::new(alloc);
    let mut left = count;
    let mut place = at;
    let mut rest = bytes;
    while left > 0 {
        let size = left.min(GROUP);
        let after = groups.read_more(place, size, rest)?;
        place += (rest.len() - after.len()) as u64;
        left -= size;
        rest = after;
    }
    groups.shrink();
    Ok((groups, rest))
}
