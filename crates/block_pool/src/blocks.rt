// A pool of blocks, and the chains that are linked through them.

ghost use Rattle.std.specs.Prelude.{◌≡◌, ◌↔◌, ℕ, ◌+◌, ◌*◌, ◌%◌, ◌^◌, ◌<◌, ◌≤◌, []};
ghost use Rattle.std.specs.Prelude.{◌∷◌, ◌++◌, length, set, take, drop, replicate, slice_index, slice_index_or, vec_capacity, All, IfOk};
ghost use Rattle.block_pool.specs.Chains.{chain_at, with_chain, empty_pool, held_blocks, free_blocks, HasNoRoom};
ghost use Rattle.block_pool.specs.Pushing.{IsKept, IsFull, IfFull};
ghost use Rattle.block_pool.specs.Linking.{NO_RECORD, held_at, IsBegun};

use bucket_map::{NoMemory, Record};
use std::alloc::Global;
use std::marker::Model;

/// The number of records that a block holds.
pub const BLOCK_RECORDS: u32 = 1_024;

/// A pool has at most this many blocks.
pub const MAX_BLOCKS: u32 = 65_536;

/// A pool has at most this many chains.
pub const MAX_CHAINS: u32 = 4_096;

/// What `Pool::push` did.
#[derive(Clone, Copy, Debug, PartialEq, Eq)]
pub enum Push {
    /// The record is the last of its chain now.
    Kept,
    /// There was no block for the record, which comes back.
    Full(Record),
}

// The first and the last block of a chain that has records, and their number.
#[derive(Clone, Copy)]
struct Chain {
    head: u32,
    tail: u32,
    len: u32,
}

/// Chains of records in blocks that are taken all at once.
#[derive(Drop)]
pub struct Pool {
    // the blocks that were in use at some time, one after another; there is room for all blocks
    records: Vec<Record>,
    // the next block of the chain, by block
    next: Vec<u32>,
    // the blocks that were in use and are free, in front
    spare: Vec<u32>,
    spare_count: u32,
    // how many blocks were in use at some time
    made: u32,
    chains: Vec<Chain>,
}

impl Model for Pool {
    ghost use Rattle.block_pool.specs.Chains.{PoolData};

    ghost Value = { PoolData };

    ghost use Rattle.block_pool.specs.Layout.{pool_in, IsSound};

    ghost view = { pool_in };

    ghost invariant = { IsSound };
}

impl Pool {
    /// A pool of empty chains, with memory for all its blocks.
    pub fn new(alloc: Global, blocks: u32, chains: u32) -> Result<Self, NoMemory>
        requires some_blocks { 1 ≤ blocks }
        requires most_blocks { blocks ≤ MAX_BLOCKS }
        requires some_chains { 1 ≤ chains }
        requires most_chains { chains ≤ MAX_CHAINS }
        ensures { IfOk result (λ pool. pool ≡ empty_pool blocks chains) }
    {
        let none = Chain {
            head: 0,
            tail: 0,
            len: 0,
        };
        Ok(Self {
            records: Vec::with_capacity(alloc, blocks as usize * BLOCK_RECORDS as usize)?,
            next: vec![in alloc; 0; blocks as usize]?,
            spare: vec![in alloc; 0; blocks as usize]?,
            spare_count: 0,
            made: 0,
            chains: vec![in alloc; none; chains as usize]?,
        })
    }

    /// Adds a record at the end of a chain.
    // A call takes longer than the work where the block has room, so this goes into its callers.
    #[inline(always)]
    pub fn push(&mut self, chain: u32, item: Record) -> Push
        requires { chain < length self.old.chains }
        ensures kept { IsKept result
            → self.new ≡ with_chain self.old chain (chain_at self.old chain ++ item ∷ []) }

        ensures full { IsFull result ↔ HasNoRoom self.old chain }
        ensures back { IfFull result (λ back. back ≡ item) }
        ensures unchanged { IsFull result → self.new ≡ self.old }
        ensures chains { length self.new.chains ≡ length self.old.chains }
    {
        let held = self.chains[chain as usize];
        let offset = held.len % BLOCK_RECORDS;
        if offset == 0 {
            return self.push_first(chain, item);
        }
        let place = held.tail as usize * BLOCK_RECORDS as usize + offset as usize;
        self.records[place] = item;
        self.chains[chain as usize] = Chain {
            head: held.head,
            tail: held.tail,
            len: held.len + 1,
        };
        Push::Kept
    }

    // Adds a record at the beginning of one more block of a chain whose blocks are full.
    #[cold]
    #[inline(never)]
    fn push_first(&mut self, chain: u32, item: Record) -> Push
        requires chain { chain < length self.old.chains }
        requires full { length (chain_at self.old chain) % BLOCK_RECORDS ≡ 0 }
        ensures kept { IsKept result
            → self.new ≡ with_chain self.old chain (chain_at self.old chain ++ item ∷ []) }

        ensures full { IsFull result ↔ HasNoRoom self.old chain }
        ensures back { IfFull result (λ back. back ≡ item) }
        ensures unchanged { IsFull result → self.new ≡ self.old }
        ensures chains { length self.new.chains ≡ length self.old.chains }
    {
        let held = self.chains[chain as usize];
        if self.spare_count > 0 {
            self.spare_count -= 1;
            let block = self.spare[self.spare_count as usize];
            self.records[block as usize * BLOCK_RECORDS as usize] = item;
            self.chains[chain as usize] = begun(&mut self.next, held, block);
            return Push::Kept;
        }
        let block = self.made;
        if (block as usize) < self.next.len() {
            self.made += 1;
            make_block(&mut self.records);
            self.records[block as usize * BLOCK_RECORDS as usize] = item;
            self.chains[chain as usize] = begun(&mut self.next, held, block);
            return Push::Kept;
        }
        Push::Full(item)
    }

    /// The records of the first block of a chain, which are its oldest.
    pub fn front(&self, chain: u32) -> &[Record]
        requires { chain < length self.now.chains }
        ensures { result.now ≡ take BLOCK_RECORDS (chain_at self.now chain) }
    {
        let held = self.chains[chain as usize];
        if held.len == 0 {
            return &self.records[..0];
        }
        let start = held.head as usize * BLOCK_RECORDS as usize;
        &self.records[start..start + held.len.min(BLOCK_RECORDS) as usize]
    }

    /// Takes out the records that `front` shows, and frees their block.
    pub fn drop_front(&mut self, chain: u32)
        requires { chain < length self.old.chains }
        ensures { self.new
            ≡ with_chain self.old chain (drop BLOCK_RECORDS (chain_at self.old chain)) }
    {
        let held = self.chains[chain as usize];
        if held.len == 0 {
            return;
        }
        self.spare_count = give_back(&mut self.spare, self.spare_count, held.head);
        self.chains[chain as usize] = Chain {
            head: self.next[held.head as usize],
            tail: held.tail,
            len: held.len.saturating_sub(BLOCK_RECORDS),
        };
    }

    /// The chain with the most records, the first of several.
    pub fn longest(&self) -> u32
        ensures inside { result < length self.now.chains }
        ensures longest { All (λ records. length records ≤ length (chain_at self.now result))
            self.now.chains }
        ensures first { (chain : ℕ) → chain < result
            → length (chain_at self.now chain) < length (chain_at self.now result) }
    {
        longest_of(&self.chains) as u32
    }

    /// The number of records in a chain.
    pub fn len(&self, chain: u32) -> u64
        requires { chain < length self.now.chains }
        ensures { result ≡ length (chain_at self.now chain) }
    {
        u64::from(self.chains[chain as usize].len)
    }

    /// The number of blocks that no chain holds.
    pub fn free(&self) -> u32
        ensures value { result ≡ free_blocks self.now }
        ensures rest { result + held_blocks self.now ≡ self.now.blocks }
    {
        self.next.len() as u32 - self.made + self.spare_count
    }
}

// One more block at the end of the region, which had room for it.
fn make_block(records: &mut Vec<Record>)
    requires { length records.old.items + BLOCK_RECORDS ≤ vec_capacity records.old }
    ensures items { records.new.items ≡ records.old.items ++ replicate BLOCK_RECORDS NO_RECORD }
    ensures capacity { vec_capacity records.old ≤ vec_capacity records.new }
{
    let empty = Record {
        a: 0,
        b: 0,
        ordinal: 0,
    };
    let _ = records.resize(records.len() + BLOCK_RECORDS as usize, empty);
}

// Puts a block behind the spare ones, and gives how many these are then.
fn give_back(spare: &mut Vec<u32>, spare_count: u32, block: u32) -> u32
    requires room { spare_count < length spare.old.items }
    requires most { length spare.old.items ≤ MAX_BLOCKS }
    ensures items { spare.new.items ≡ set spare.old.items spare_count block }
    ensures count { result ≡ spare_count + 1 }
{
    spare[spare_count as usize] = block;
    spare_count + 1
}

// Links a block to the last one of a chain of full blocks, if that has one, and gives the chain with
// a record there.
fn begun(next: &mut Vec<u32>, chain: Chain, block: u32) -> Chain
    requires tail { 0 < chain.len → chain.tail < length next.old.items }
    requires len { chain.len + 1 < 2 ^ 32 }
    ensures { IsBegun chain block next.old.items next.new.items result }
{
    if chain.len == 0 {
        return Chain {
            head: block,
            tail: block,
            len: 1,
        };
    }
    next[chain.tail as usize] = block;
    Chain {
        head: chain.head,
        tail: block,
        len: chain.len + 1,
    }
}

// The place of the chain with the most records, the first of several.
fn longest_of(chains: &[Chain]) -> usize
    requires { 0 < length chains.now }
    ensures inside { result < length chains.now }
    ensures longest { (k : ℕ) → k < length chains.now
        → (held_at chains.now k).len ≤ (held_at chains.now result).len }
    ensures first { (k : ℕ) → k < result
        → (held_at chains.now k).len < (held_at chains.now result).len }
{
    let mut longest = 0;
    for k in 1..chains.len() {
        if chains[k].len > chains[longest].len {
            longest = k;
        }
    }
    longest
}
