// The distinct numbers, and each number by its index among them.
ghost use Rattle.std.specs.Prelude.{◌≡◌, ◌+◌, ◌^◌, ◌≤◌, ◌++◌, length, take, IfOk, OnOk, IsTrue};
ghost use Rattle.std.specs.List.{slice_get, flat_map};
ghost use Rattle.elias_fano.specs.Spelling.{number};
ghost use Rattle.elias_fano.specs.Values.{below_len};
ghost use Rattle.elias_fano.specs.Reading.{Gives, HidesNoShort, TellsShort};
ghost use Rattle.pilot_codecs.specs.Spelling.{dict_text, compact_text};
ghost use Rattle.pilot_codecs.specs.Reading.{rise_len, used_at, indexed_at, entries_at, dict_at};

use crate::compact::Compact;
use crate::distinct::{distinct_of, indexes_of};
use crate::entries::{below_and_used, rise};
use bit_vector::NoMemory;
use elias_fano::{COUNT, FormFault, ORDER, ReadErr, SHORT, append_words, put_numbers, read_number};
use std::alloc::Global;
use std::marker::Model;

/// The distinct numbers, and each number by its index among them.
#[derive(Drop)]
pub struct Dict {
    entries: Vec<u64>,
    places: Compact,
}

impl Model for Dict {
    ghost use Rattle.std.specs.Prelude.{ℕ, List};
    ghost use Rattle.pilot_codecs.specs.Reading.{looked_up};
    ghost use Rattle.pilot_codecs.specs.Parts.{IsDict};

    ghost Value = { List ℕ };

    ghost view = { λ d. looked_up d.entries.items d.places };

    ghost invariant = { λ d. IsDict d.entries.items d.places };
}

impl Dict {
    /// The list of these values.
    pub fn encode(alloc: Global, values: &[u64]) -> Result<Dict, NoMemory>
        requires { length values.now ≤ 2 ^ 30 }
        ensures { IfOk result (λ d. d ≡ values.now) }
    {
        let entries = distinct_of(alloc, values)?;
        let indexes = indexes_of(alloc, &entries, values)?;
        let places = Compact::encode(alloc, &indexes)?;
        Ok(Dict { entries, places })
    }

    /// How many values there are.
    pub fn len(&self) -> u64
        ensures { result ≡ length self.now }
    {
        self.places.len()
    }

    /// The value with an index.
    pub fn get(&self, i: u64) -> Option<u64>
        ensures { result ≡ slice_get self.now i }
    {
        match self.places.get(i) {
            None => None,
            Some(place) => Some(self.entries[place as usize]),
        }
    }

    /// Whether the greatest value is below a bound, if there is one.
    pub fn is_within(&self, bound: u64) -> bool
        ensures { IsTrue result → below_len bound self.now ≡ length self.now }
    {
        let size = self.entries.len();
        if size == 0 {
            return true;
        }
        self.entries[size - 1] < bound
    }

    /// Appends the spelling; on want of memory a part of it.
    pub fn put(&self, out: &mut Vec<u8>) -> Result<(), NoMemory>
        ensures ok { OnOk result (out.new.items ≡ out.old.items ++ dict_text self.now) }
        ensures kept { take (length out.old.items) out.new.items ≡ out.old.items }
    {
        put_entries(out, &self.entries, &self.places)
    }

    /// The list of a count that bytes begin with, and the bytes after it.
    pub fn read(alloc: Global, at: u64, count: u64, bytes: &[u8]) -> Result<(Dict, &[u8]), ReadErr>
        requires few { count ≤ 2 ^ 30 }
        requires place { at ≤ 2 ^ 63 + 2 ^ 49 }
        ensures values { Gives (λ x. (x.0, x.1.now)) result (dict_at at count bytes.now) }
        ensures short { TellsShort at result (dict_at at count bytes.now) }
    {
        let (size, rest) = read_number(at, bytes)?;
        if size > count || (size == 0 && count != 0) {
            return Err(ReadErr::Form(FormFault { at, kind: COUNT }));
        }
        entries_of(alloc, at, count, size, rest)
    }
}

// Appends the size, the entries and the indexes; on want of memory a part of them.
fn put_entries(out: &mut Vec<u8>, entries: &[u64], places: &Compact) -> Result<(), NoMemory>
    ensures ok { OnOk result (out.new.items ≡ out.old.items
        ++ (number (length entries.now) ++ flat_map number entries.now
        ++ compact_text places.now)) }
    ensures kept { take (length out.old.items) out.new.items ≡ out.old.items }
{
    put_numbers(out, &[entries.len() as u64])?;
    put_numbers(out, entries)?;
    places.put(out)?;
    Ok(())
}

// The list after the size of the dictionary.
fn entries_of(
    alloc: Global,
    at: u64,
    count: u64,
    size: u64,
    bytes: &[u8],
) -> Result<(Dict, &[u8]), ReadErr>
    requires few { count ≤ 2 ^ 30 }
    requires fewer { size ≤ count }
    requires place { at ≤ 2 ^ 63 + 2 ^ 49 }
    ensures values { Gives (λ x. (x.0, x.1.now)) result (entries_at at count size bytes.now) }
    ensures short { TellsShort at result (entries_at at count size bytes.now) }
{
    if (bytes.len() as u64) < 8 * size {
        return Err(ReadErr::Form(FormFault {
            at: at + 8,
            kind: SHORT,
        }));
    }
    let mut entries = Vec::new(alloc);
    append_words(&mut entries, bytes, size as usize)?;
    let risen = rise(&entries) as u64;
    if risen < size {
        return Err(ReadErr::Form(FormFault {
            at: at + 8 + 8 * risen,
            kind: ORDER,
        }));
    }
    indexed_of(alloc, at, count, entries, &bytes[8 * size as usize..])
}

// The list after the dictionary.
fn indexed_of(
    alloc: Global,
    at: u64,
    count: u64,
    entries: Vec<u64>,
    bytes: &[u8],
) -> Result<(Dict, &[u8]), ReadErr>
    requires few { count ≤ 2 ^ 30 }
    requires fewer { length entries.items ≤ count }
    requires rising { rise_len entries.items ≡ length entries.items }
    requires place { at ≤ 2 ^ 63 + 2 ^ 49 }
    ensures values { Gives (λ x. (x.0, x.1.now)) result
        (indexed_at at count entries.items bytes.now) }
    ensures memory { HidesNoShort result (indexed_at at count entries.items bytes.now) }
{
    let size = entries.len() as u64;
    let (places, rest) = Compact::read(alloc, at + 8 + 8 * size, count, bytes)?;
    let dict = used_of(alloc, at, entries, places)?;
    Ok((dict, rest))
}

// The list of a dictionary and indexes.
fn used_of(alloc: Global, at: u64, entries: Vec<u64>, places: Compact) -> Result<Dict, ReadErr>
    requires few { length entries.items ≤ 2 ^ 30 }
    requires rising { rise_len entries.items ≡ length entries.items }
    requires place { at ≤ 2 ^ 63 + 2 ^ 49 }
    ensures { Gives (λ x. x) result (used_at at entries.items places) }
{
    let size = entries.len();
    let (below, used) = below_and_used(alloc, &places, size)?;
    if !below {
        return Err(ReadErr::Form(FormFault {
            at: at + 8 + 8 * size as u64 + 8,
            kind: COUNT,
        }));
    }
    if !used {
        return Err(ReadErr::Form(FormFault { at, kind: COUNT }));
    }
    Ok(Dict { entries, places })
}
