// Files in memory, of which chosen calls fail.
ghost use Rattle.std.specs.Prelude.{◌≡◌, ◌≢◌, ◌≤◌, ◌<◌, ◌==◌, ◌/◌, ℕ, List, IsTrue, IsSome, IfOk, OnOk, OnErr, IsErrOf, Some, None, [], length, take, min, option_map, option_copied, vec_len};
ghost use Rattle.std.specs.FinMap as map;
ghost use Rattle.pth_outside.specs.Files.{put_at, created, appended, published, removed, one_more, Rose, IsThere, contents, IsRead, AppendsFront};
ghost use Rattle.pth_outside.specs.Memory.{counted, faulted, with_files, is_listed, left_from, MustFail, Ends};
ghost use Rattle.pth_outside.specs.Memory.{after_create, after_append, after_half, after_publish, after_remove};

use crate::slots::{
    Slot, bytes_at, copy_from, extend, is_marked, make_empty, put_bytes, rename, take_bytes,
};
use crate::{FileErr, Files, NoMemory};
use std::alloc::{AllocError, Global};
use std::marker::Model;

/// Files in memory. The calls of `Files` are numbered from 0, and the listed ones fail.
#[derive(Drop)]
pub struct MemFiles {
    alloc: Global,
    slots: Vec<Slot>,
    fails: Vec<u64>,
    most: usize,
    calls: u64,
    faults: u64,
}

impl Model for MemFiles {
    ghost use Rattle.std.specs.Prelude.{◌<◌};
    ghost use Rattle.pth_outside.specs.Memory.{Memory, memory_code};

    ghost Value = { Memory };

    ghost coded = { memory_code };

    ghost use Rattle.pth_outside.specs.Slots.{files_of, marks_of};

    ghost view = { λ m. record {
      files = files_of m.slots.items;
      created = marks_of m.slots.items;
      fails = m.fails.items;
      most = m.most;
      calls = m.calls;
      faults = m.faults;
    } };

    ghost invariant = { λ m. 0 < m.most };
}

impl MemFiles {
    /// No files. The calls whose numbers `fails` lists fail, and a read gives at most `most` bytes.
    pub fn new(alloc: Global, fails: Vec<u64>, most: usize) -> Self
        requires { 0 < most }
        ensures files { result.files ≡ map.empty }
        ensures created { result.created ≡ map.empty }
        ensures fails { result.fails ≡ fails.items }
        ensures most { result.most ≡ most }
        ensures calls { result.calls ≡ 0 }
        ensures faults { result.faults ≡ 0 }
    {
        MemFiles {
            alloc,
            slots: Vec::new(alloc),
            fails,
            most,
            calls: 0,
            faults: 0,
        }
    }

    /// Puts a file there, in place of the one that has the name. This is no call of `Files`.
    pub fn put(&mut self, name: &str, bytes: &[u8]) -> Result<(), NoMemory>
        ensures ok { OnOk result
            (self.new ≡ with_files (put_at self.old.files name.now (Some bytes.now)) self.old) }
        ensures err { OnErr result (self.new ≡ self.old) }
    {
        let bytes = bytes.to_vec(self.alloc)?;
        put_bytes(self.alloc, &mut self.slots, name, bytes)?;
        Ok(())
    }

    /// The bytes of a file, or `None` where it is missing.
    pub fn get(&self, name: &str) -> Option<&[u8]>
        ensures { option_copied result ≡ map.get self.now.files name.now }
    {
        bytes_at(&self.slots, name)
    }

    /// Whether a `create` of this name has answered `Ok`.
    pub fn created(&self, name: &str) -> bool
        ensures { result ≡ map.contains_key self.now.created name.now }
    {
        is_marked(&self.slots, name)
    }

    // Counts a call, and tells whether it is one of those that fail.
    fn begin(&mut self) -> bool
        ensures listed { result ≡ is_listed self.old }
        ensures counted { self.new ≡ counted self.old }
    {
        let fails = self.fails.contains(&self.calls);
        self.calls = self.calls.saturating_add(1);
        fails
    }

    // A failure, which is counted.
    fn fault(&mut self) -> FileErr
        ensures failed { result ≡ FileErr.Failed }
        ensures counted { self.new ≡ record self.old { faults = one_more self.old.faults } }
        ensures later { self.old.faults ≤ self.new.faults }
    {
        self.faults = self.faults.saturating_add(1);
        FileErr::Failed
    }
}

impl Files for MemFiles {
    ghost state = { λ m. record {
      told = Some m.files;
      faults = m.faults;
      sure = length m.fails == 0;
    } };

    fn read_at(&mut self, name: &str, at: u64, into: &mut [u8]) -> Result<usize, FileErr>
        ensures ends { Ends (MustFail self.old name.now) self.old
            (counted self.old) (faulted self.old) self.new result }
        ensures later { self.old.faults ≤ self.new.faults }
        ensures read { IfOk result (λ count. (bytes : List ℕ) →
            map.get self.old.files name.now ≡ Some bytes →
            IsRead bytes at into.old into.new count) }
        ensures count { IfOk result (λ count.
            let left = left_from at (map.get self.old.files name.now) in
            count ≡ min self.old.most (min (length into.old) left)) }
        ensures unread { OnErr result (into.new ≡ into.old) }
    {
        if self.begin() {
            return Err(self.fault());
        }
        let Some(bytes) = bytes_at(&self.slots, name) else {
            return Err(self.fault());
        };
        Ok(copy_from(bytes, at, self.most, into))
    }

    fn create(&mut self, name: &str) -> Result<(), FileErr>
        ensures ends { Ends (IsTrue (is_listed self.old)) self.old
            (after_create name.now self.old) (faulted self.old) self.new result }
        ensures later { self.old.faults ≤ self.new.faults }
    {
        if self.begin() {
            return Err(self.fault());
        }
        make_empty(self.alloc, &mut self.slots, name)?;
        Ok(())
    }

    fn append(&mut self, name: &str, piece: &[u8]) -> Result<(), FileErr>
        ensures ends { Ends (MustFail self.old name.now) self.old
            (after_append name.now piece.now self.old) (after_half name.now piece.now self.old)
            self.new result }
        ensures later { self.old.faults ≤ self.new.faults }
    {
        let fails = self.begin();
        let kept = if fails { piece.len() / 2 } else { piece.len() };
        let there = extend(&mut self.slots, name, &piece[..kept])?;
        if fails || !there {
            return Err(self.fault());
        }
        Ok(())
    }

    fn publish(&mut self, from: &str, to: &str) -> Result<(), FileErr>
        requires { from.now ≢ to.now }
        ensures ends { Ends (MustFail self.old from.now) self.old
            (after_publish from.now to.now self.old) (faulted self.old) self.new result }
        ensures later { self.old.faults ≤ self.new.faults }
    {
        if self.begin() {
            return Err(self.fault());
        }
        if !rename(self.alloc, &mut self.slots, from, to)? {
            return Err(self.fault());
        }
        Ok(())
    }

    fn remove(&mut self, name: &str) -> Result<(), FileErr>
        ensures ends { Ends (MustFail self.old name.now) self.old
            (after_remove name.now self.old) (faulted self.old) self.new result }
        ensures later { self.old.faults ≤ self.new.faults }
    {
        if self.begin() {
            return Err(self.fault());
        }
        if take_bytes(&mut self.slots, name).is_none() {
            return Err(self.fault());
        }
        Ok(())
    }
}
