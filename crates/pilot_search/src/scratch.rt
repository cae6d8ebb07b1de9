// What a search is lent, so that it takes no memory.

ghost use Rattle.std.specs.Prelude.{◌≡◌, ◌-◌, ◌≤◌, [], ◌++◌, length, replicate, take, IfOk, IfSome, OnOk, OnErr};
ghost use Rattle.std.specs.FinSet.{contains};
ghost use Rattle.pthash.specs.declared.TheConstants.{MAX_POSITIONS};
ghost use Rattle.pthash.specs.Hash.{pilot_hash};
ghost use Rattle.pthash.specs.Order.{most_members};
ghost use Rattle.pthash.specs.Search.{is_distinct, pilot_fits, positions_of};
ghost use Rattle.pthash.specs.Least.{FailsBelow, IsAnswer};
ghost use Rattle.pilot_search.specs.Kept.{AreHashes};
ghost use Rattle.pilot_search.specs.Marking.{AreMarks};

use crate::fit::write_positions;
use crate::occupancy::Occupancy;
use crate::pilot::find_pilot;
use crate::plan::Plan;
use crate::repeats::are_distinct;
use crate::stamps::{add_stamps, hash_among, stamp_count};
use bucket_map::NoMemory;
use divisor::Divisor;
use murmur64::pilot_hash;
use std::alloc::{AllocError, Global};
use std::marker::Model;

// The most hashes of pilots that are kept.
const MOST_HASHES: u64 = 4096;

/// The room of a search: for the positions of one bucket, for hashes of pilots, and for stamps where a bucket is large.
#[derive(Drop)]
pub struct Scratch {
    positions: Vec<u64>,
    // how many positions were computed last
    used: u64,
    marks: Vec<u64>,
    // one for each position of the table, or none
    stamps: Vec<u16>,
    // the hashes of the first pilots
    hashes: Vec<u64>,
    seed: u64,
    // the size of the table that was spread over last
    size: Divisor,
}

impl Model for Scratch {
    ghost use Rattle.std.specs.Prelude.{length, take};
    ghost use Rattle.pilot_search.specs.Room.{Room, IsRoom};

    ghost Value = { Room };

    ghost view = { λ a.
        record { members = length a.positions.items; positions = take a.used a.positions.items } };

    ghost invariant = { λ a.
        IsRoom a.positions.items a.used a.marks.items a.hashes.items a.seed };
}

impl Scratch {
    /// Room for each bucket of the plan.
    pub fn new(alloc: Global, plan: &Plan) -> Result<Self, NoMemory>
        ensures { IfOk result (λ scratch. most_members plan.now.buckets ≤ scratch.members) }
    {
        let members = plan.largest();
        let stamps = stamp_count(members, plan.size());
        let hashes = MOST_HASHES.min(64 + plan.size() / 16);
        Ok(room_for(alloc, members, stamps, hashes, plan.seed())?)
    }

    /// Room for buckets of at most so many members, of whatever plan.
    pub fn with(alloc: Global, members: u64) -> Result<Self, NoMemory>
        requires { members ≤ MAX_POSITIONS }
        ensures { IfOk result (λ scratch. scratch.members ≡ members) }
    {
        Ok(room_for(alloc, members, 0, MOST_HASHES, 0)?)
    }

    /// Makes room for each bucket of the plan, and keeps what room there is.
    pub fn serve(&mut self, plan: &Plan) -> Result<(), NoMemory>
        ensures ok { OnOk result (most_members plan.now.buckets ≤ self.new.members) }
        ensures kept { self.old.members ≤ self.new.members }
        ensures err { OnErr result (self.new ≡ self.old) }
    {
        let members = plan.largest();
        let stamps = stamp_count(members, plan.size());
        add_stamps(&mut self.stamps, stamps as usize)?;
        if members > self.positions.len() as u64 {
            let words = (members / 8 + 1).next_power_of_two();
            lengthen(&mut self.marks, words as usize)?;
            lengthen(&mut self.positions, members as usize)?;
        }
        Ok(())
    }

    /// The hash of a pilot, kept where it is one of the first.
    #[inline]
    pub fn pilot_hash(&mut self, pilot: u64, seed: u64) -> u64
        ensures hash { result ≡ pilot_hash pilot seed }
        ensures kept { self.new ≡ self.old }
    {
        keep_hashes(&mut self.hashes, self.seed, seed);
        self.seed = seed;
        hash_among(&self.hashes, pilot, seed)
    }

    /// The positions that were computed last, in the order of the bucket's members.
    #[inline]
    pub fn positions(&self) -> &[u64]
        ensures { result.now ≡ self.now.positions }
    {
        &self.positions[..self.used as usize]
    }

    // How many members a bucket may have.
    pub(crate) fn members(&self) -> u64
        ensures { result ≡ self.now.members }
    {
        self.positions.len() as u64
    }

    // The pilot of a bucket with these members, sought from `first` on, and then its positions.
    pub(crate) fn find_pilot(
        &mut self,
        members: &[u64],
        first: u64,
        seed: u64,
        limit: u64,
        size: &Divisor,
        occupied: &Occupancy,
    ) -> Option<u64>
        requires some { 1 ≤ length members.now }
        requires room { length members.now ≤ self.old.members }
        requires size { size.now ≡ occupied.now.size }
        requires no_lower { let fit = pilot_fits seed size.now (contains occupied.now.taken) in
            FailsBelow (fit members.now) first }
        ensures pilot { let fit = pilot_fits seed size.now (contains occupied.now.taken) in
            IsAnswer (fit members.now) limit result }
        ensures positions { let places = positions_of seed size.now members.now in
            IfSome result (λ k. self.new.positions ≡ places k) }
        ensures room { self.new.members ≡ self.old.members }
    {
        keep_hashes(&mut self.hashes, self.seed, seed);
        self.seed = seed;
        self.used = members.len() as u64;
        find_pilot(
            members,
            first,
            seed,
            limit,
            size,
            occupied,
            &self.hashes,
            &mut self.positions,
            &mut self.marks,
            &mut self.stamps,
        )
    }

    // The positions of members under a pilot, and whether they are distinct.
    pub(crate) fn spread(&mut self, members: &[u64], pilot: u64, seed: u64, size: u64) -> bool
        requires some { 1 ≤ size }
        requires room { length members.now ≤ self.old.members }
        ensures positions { self.new.positions ≡ positions_of seed size members.now pilot }
        ensures distinct { result ≡ is_distinct (positions_of seed size members.now pilot) }
        ensures room { self.new.members ≡ self.old.members }
    {
        let hash = self.pilot_hash(pilot, seed);
        keep_size(&mut self.size, size);
        self.used = members.len() as u64;
        write_positions(members, hash, &self.size, &mut self.positions);
        are_distinct(&self.positions[..members.len()], &mut self.marks)
    }
}

// Room for these members, and so many stamps and hashes of pilots.
fn room_for(
    alloc: Global,
    members: u64,
    stamps: u64,
    hashes: u64,
    seed: u64,
) -> Result<Scratch, AllocError>
    requires members { members ≤ MAX_POSITIONS }
    requires stamps { stamps ≤ MAX_POSITIONS }
    requires hashes { hashes ≤ 4096 }
    ensures { IfOk result (λ scratch. scratch.members ≡ members) }
{
    let positions = vec![in alloc; 0; members as usize]?;
    let marks = no_marks(alloc, members)?;
    let stamps = vec![in alloc; 0; stamps as usize]?;
    let hashes = hashes_of(alloc, hashes, seed)?;
    Ok(Scratch {
        positions,
        used: 0,
        marks,
        stamps,
        hashes,
        seed,
        size: Divisor::new(1),
    })
}

// One to two bytes of marks for each member.
fn no_marks(alloc: Global, members: u64) -> Result<Vec<u64>, AllocError>
    requires { members ≤ MAX_POSITIONS }
    ensures { IfOk result (λ marks. AreMarks marks.items []) }
{
    let words = (members / 8 + 1).next_power_of_two();
    vec![in alloc; 0; words as usize]
}

fn hashes_of(alloc: Global, count: u64, seed: u64) -> Result<Vec<u64>, AllocError>
    requires { count ≤ 4096 }
    ensures { IfOk result (λ hashes. AreHashes seed hashes.items) }
{
    let mut hashes = vec![in alloc; 0; count as usize]?;
    fill_hashes(hashes.as_mut_slice(), seed);
    Ok(hashes)
}

// Makes kept hashes those of a seed.
#[inline]
fn keep_hashes(hashes: &mut [u64], kept: u64, seed: u64)
    requires { AreHashes kept hashes.old }
    ensures { AreHashes seed hashes.new }
{
    if kept != seed {
        fill_hashes(hashes, seed);
    }
}

// Makes a kept divisor that of a size: with a division only where the size is another.
#[inline]
fn keep_size(kept: &mut Divisor, size: u64)
    requires { 1 ≤ size }
    ensures { kept.new ≡ size }
{
    if kept.value() != size {
        *kept = Divisor::new(size);
    }
}

// Writes the hash of each pilot to its place.
fn fill_hashes(hashes: &mut [u64], seed: u64)
    ensures { AreHashes seed hashes.new }
{
    for pilot in 0..hashes.len() {
        hashes[pilot] = pilot_hash(pilot as u64, seed);
    }
}

// Adds zeros up to this length, if there are fewer numbers.
fn lengthen(numbers: &mut Vec<u64>, len: usize) -> Result<(), AllocError>
    ensures ok { OnOk result (numbers.new.items
        ≡ numbers.old.items ++ replicate (len - length numbers.old.items) 0) }
    ensures err { OnErr result (numbers.new.items ≡ numbers.old.items) }
{
    if numbers.len() < len {
        numbers.resize(len, 0)?;
    }
    Ok(())
}
