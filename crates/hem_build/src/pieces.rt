// The records of a list by partition, in pieces of neighbours.
ghost use Rattle.std.specs.Prelude.{◌≡◌, ◌<◌, ◌≤◌, [], length, slice_index_or, All, OnOk, IfOk, IfSome};
ghost use Rattle.hem_build.specs.Gathering.{gathered, all_gathered};

use bucket_map::{Partitions, Record};
use std::alloc::{AllocError, Global};
use std::marker::Model;

// The records of a list by partition. The pieces follow one another in the list, and each has all partitions.
#[derive(Drop)]
pub(crate) struct Pieces {
    list: Vec<Partitions>,
    // how many partitions there are
    parts: u64,
}

impl Model for Pieces {
    ghost use Rattle.std.specs.Prelude.{◌≡◌, List, length, All};
    ghost use Rattle.pthash.specs.declared.Record.{Record};
    ghost use Rattle.hem_build.specs.Gathering.{all_gathered};

    ghost Value = { List (List Record) };

    ghost view = { λ a. all_gathered a.list.items a.parts };

    ghost invariant = { λ a. All (λ piece. length piece ≡ a.parts) a.list.items };
}

impl Pieces {
    // Pieces that have this many partitions each.
    pub(crate) fn new(list: Vec<Partitions>, parts: u64) -> Self
        requires { All (λ piece. length piece ≡ parts) list.items }
        ensures { result ≡ all_gathered list.items parts }
    {
        Self { list, parts }
    }

    // The number of partitions.
    pub(crate) fn len(&self) -> u64
        ensures { result ≡ length self.now }
    {
        self.parts
    }

    // The partitions as they stand, where there is one piece.
    pub(crate) fn only(&self) -> Option<&Partitions>
        ensures { IfSome result (λ partitions. partitions.now ≡ self.now) }
    {
        if self.list.len() == 1 {
            return Some(&self.list[0]);
        }
        None
    }

    // The records of a partition together, in the order of the list.
    pub(crate) fn gather(&self, alloc: Global, number: u64) -> Result<Vec<Record>, AllocError>
        requires { number < length self.now }
        ensures { IfOk result (λ records. records.items ≡ slice_index_or self.now number []) }
    {
        let mut records = Vec::with_capacity(alloc, count_among(&self.list, number))?;
        gather_into(&mut records, &self.list, number)?;
        Ok(records)
    }

    // How many records each partition has; the answer of a build doesn't depend on it.
    pub(crate) fn counts(&self, alloc: Global) -> Result<Vec<u64>, AllocError>
        ensures { IfOk result (λ counts. length counts.items ≡ length self.now) }
    {
        let parts = self.len();
        let mut counts = vec![in alloc; 0; parts as usize]?;
        add_all_counts(counts.as_mut_slice(), &self.list);
        Ok(counts)
    }
}

// How many records pieces have of a partition.
fn count_among(pieces: &[Partitions], number: u64) -> usize
    requires { All (λ piece. number < length piece) pieces.now }
{
    let mut count: usize = 0;
    for i in 0..pieces.len() {
        let piece = &pieces[i];
        count = count.saturating_add(piece.records(number).len());
    }
    count
}

// Appends what pieces have of a partition.
fn gather_into(room: &mut Vec<Record>, pieces: &[Partitions], number: u64) -> Result<(), AllocError>
    requires empty { room.old.items ≡ [] }
    requires held { All (λ piece. number < length piece) pieces.now }
    ensures { OnOk result (room.new.items ≡ gathered pieces.now number) }
{
    for i in 0..pieces.len() {
        let piece = &pieces[i];
        room.extend_from_slice(piece.records(number))?;
    }
    Ok(())
}

// Adds how many records pieces have of each partition.
fn add_all_counts(counts: &mut [u64], pieces: &[Partitions])
    requires { All (λ piece. length counts.old ≤ length piece) pieces.now }
{
    for i in 0..pieces.len() {
        add_counts(counts, &pieces[i]);
    }
}

// Adds how many records a piece has of each partition.
fn add_counts(counts: &mut [u64], piece: &Partitions)
    requires { length counts.old ≤ length piece.now }
{
    for number in 0..counts.len() {
        let more = piece.records(number as u64).len() as u64;
        counts[number] = counts[number].saturating_add(more);
    }
}
