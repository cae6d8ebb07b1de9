// The keys of a list, hashed and cut by partition at the same time.
ghost use Rattle.std.specs.Prelude.{◌≡◌, ◌+◌, ◌-◌, ◌*◌, ◌<◌, ◌≤◌, min, length, IfOk};
ghost use Rattle.pthash.specs.declared.TheConstants.{MAX_KEYS};
ghost use Rattle.pthash.specs.Partitions.{partitions_of};
ghost use Rattle.pthash.specs.Records.{records_of};
ghost use Rattle.settings.specs.Workers.{workers_of};
ghost use Rattle.build_outcome.specs.Mark.{mark_of};
ghost use Rattle.hem_build.specs.KeyPieces.{piece_records, IsPieceFrom, ArePieces};
ghost use Rattle.hem_build.specs.declared.cutting.TheConstants.{PIECE_KEYS};

use crate::hashing::{blank_records, hash_share, records_of_keys};
use crate::mark::{both_marks, mark_of_records};
use crate::pieces::Pieces;
use crate::workers::{group_count, worker_count};
use bucket_map::{NoMemory, Partitions, Record, cut_records, partitioned};
use build_outcome::KeyMark;
use pth_outside::KeyList;
use settings::How;
use std::alloc::{AllocError, Global};
use std::thread;
use std::thread::Threads;

// So many neighbouring keys are hashed and cut at once: their records stay in a processor's own cache.
pub(crate) const PIECE_KEYS: u64 = 8192;

// The records of a list by partition, and the mark of its keys.
#[derive(Drop)]
pub(crate) struct MarkedPieces {
    pub(crate) pieces: Pieces,
    pub(crate) mark: KeyMark,
}

// The same of one piece.
#[derive(Drop)]
pub(crate) struct MarkedPiece {
    pub(crate) partitions: Partitions,
    pub(crate) mark: KeyMark,
}

// The records of a list by partition. They are cut in pieces where the groups have two partitions or more each, and so gather
// at most half of the records at a time.
pub(crate) fn cut_keys<R: Threads + Sync>(
    rt: &R,
    alloc: Global,
    keys: &KeyList,
    seed: u64,
    parts: u32,
    how: How,
) -> Result<MarkedPieces, NoMemory>
    requires few { length keys.now ≤ MAX_KEYS }
    requires some_partition { 1 ≤ parts }
    requires some_worker { 1 ≤ workers_of how }
    ensures pieces { IfOk result (λ all. all.pieces
        ≡ partitions_of (records_of keys.now seed) parts) }
    ensures mark { IfOk result (λ all. all.mark ≡ mark_of keys.now seed) }
{
    let workers = worker_count(how);
    if u64::from(parts) < 2 * group_count(how, u64::from(parts)) {
        return cut_whole(rt, alloc, keys, seed, parts, workers);
    }
    let mut slots = empty_slots(alloc, keys.len().div_ceil(PIECE_KEYS))?;
    fill_slots(rt, alloc, keys, seed, parts, workers, slots.as_mut_slice());
    join_pieces(alloc, keys, seed, parts, slots)
}

// The records as one piece.
fn cut_whole<R: Threads + Sync>(
    rt: &R,
    alloc: Global,
    keys: &KeyList,
    seed: u64,
    parts: u32,
    workers: u32,
) -> Result<MarkedPieces, NoMemory>
    requires few { length keys.now ≤ MAX_KEYS }
    requires some_partition { 1 ≤ parts }
    requires some_worker { 1 ≤ workers }
    ensures pieces { IfOk result (λ all. all.pieces
        ≡ partitions_of (records_of keys.now seed) parts) }
    ensures mark { IfOk result (λ all. all.mark ≡ mark_of keys.now seed) }
{
    let records = records_of_keys(rt, alloc, keys, seed, workers)?;
    let mark = mark_of_records(&records);
    let partitions = cut_records(alloc, records, parts)?;
    let mut list = Vec::with_capacity(alloc, 1)?;
    list.push(partitions)?;
    let pieces = Pieces::new(list, u64::from(parts));
    Ok(MarkedPieces { pieces, mark })
}

// A slot for each piece.
fn empty_slots(alloc: Global, count: u64) -> Result<Vec<Result<MarkedPiece, NoMemory>>, AllocError>
    ensures { IfOk result (λ slots. length slots.items ≡ count) }
{
    let mut slots = Vec::with_capacity(alloc, count as usize)?;
    for _ in 0..count {
        slots.push(Err(NoMemory))?;
    }
    Ok(slots)
}

// Puts each piece into its slot, by at most so many threads.
fn fill_slots<R: Threads + Sync>(
    rt: &R,
    alloc: Global,
    keys: &KeyList,
    seed: u64,
    parts: u32,
    workers: u32,
    slots: &mut [Result<MarkedPiece, NoMemory>],
)
    requires few { length keys.now ≤ MAX_KEYS }
    requires some_partition { 1 ≤ parts }
    requires some_worker { 1 ≤ workers }
    requires last { length slots.old * PIECE_KEYS < length keys.now + PIECE_KEYS }
    requires all { length keys.now ≤ length slots.old * PIECE_KEYS }
    ensures { ArePieces keys.now seed parts 0 slots.new }
{
    thread::for_each_mut(
        rt,
        slots,
        workers as usize,
        &|number: usize, slot: &mut Result<MarkedPiece, NoMemory>|
            requires few { length keys.now ≤ MAX_KEYS }
            requires some_partition { 1 ≤ parts }
            requires within { number * PIECE_KEYS < length keys.now }
            ensures { IfOk slot.exit.now
                (IsPieceFrom keys.entry.now seed parts (number * PIECE_KEYS)) }
        {
            *slot = cut_piece(alloc, keys, seed, parts, number as u64 * PIECE_KEYS);
        },
    );
}

// The piece whose keys begin at a place.
fn cut_piece(
    alloc: Global,
    keys: &KeyList,
    seed: u64,
    parts: u32,
    start: u64,
) -> Result<MarkedPiece, NoMemory>
    requires few { length keys.now ≤ MAX_KEYS }
    requires some_partition { 1 ≤ parts }
    requires within { start < length keys.now }
    ensures { IfOk result (IsPieceFrom keys.now seed parts start) }
{
    let records = records_of_piece(alloc, keys, seed, start)?;
    let mark = mark_of_records(&records);
    let partitions = partitioned(alloc, &records, parts)?;
    Ok(MarkedPiece { partitions, mark })
}

// The records of the keys of that piece.
fn records_of_piece(
    alloc: Global,
    keys: &KeyList,
    seed: u64,
    start: u64,
) -> Result<Vec<Record>, NoMemory>
    requires few { length keys.now ≤ MAX_KEYS }
    requires within { start < length keys.now }
    ensures { IfOk result (λ records. records.items ≡ piece_records keys.now seed start) }
{
    let count = PIECE_KEYS.min(keys.len() - start);
    let mut records = blank_records(alloc, count as usize)?;
    hash_piece(keys, seed, start, records.as_mut_slice());
    Ok(records)
}

// The same, written over others.
fn hash_piece(keys: &KeyList, seed: u64, start: u64, records: &mut [Record])
    requires few { length keys.now ≤ MAX_KEYS }
    requires within { start < length keys.now }
    requires count { length records.old ≡ min PIECE_KEYS (length keys.now - start) }
    ensures { records.new ≡ piece_records keys.now seed start }
{
    hash_share(keys, seed, start, records);
}

// The pieces of all slots, and the mark of all keys.
fn join_pieces(
    alloc: Global,
    keys: &KeyList,
    seed: u64,
    parts: u32,
    slots: Vec<Result<MarkedPiece, NoMemory>>,
) -> Result<MarkedPieces, NoMemory>
    requires { ArePieces keys.now seed parts 0 slots.items }
    ensures pieces { IfOk result (λ all. all.pieces
        ≡ partitions_of (records_of keys.now seed) parts) }
    ensures mark { IfOk result (λ all. all.mark ≡ mark_of keys.now seed) }
{
    let mut list = Vec::with_capacity(alloc, slots.len())?;
    let mut mark = KeyMark { sum: 0, xor: 0 };
    for slot in slots {
        let piece = slot?;
        mark = both_marks(mark, piece.mark);
        list.push(piece.partitions)?;
    }
    let pieces = Pieces::new(list, u64::from(parts));
    Ok(MarkedPieces { pieces, mark })
}
