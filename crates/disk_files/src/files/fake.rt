// The system for a test: one of the calls fails, and a write is taken in parts.
use crate::system::System;
use std::cell::Cell;
use std::fs::{File, OpenOptions};
use std::io;
use std::io::ErrorKind;

// How many bytes a write takes at most.
const PART: usize = 2;

/// The system, of which one call fails.
#[derive(Drop)]
pub struct FakeSystem<'a> {
    rt: &'a HostRuntime,
    // how many calls are left up to the one that fails, or 0 where none is to come
    left: Cell<u64>,
    kind: ErrorKind,
}

impl<'a> FakeSystem<'a> {
    /// No call fails yet.
    pub fn new(rt: &'a HostRuntime, kind: ErrorKind) -> Self {
        Self {
            rt,
            left: Cell::new(0),
            kind,
        }
    }

    /// The call with this number from here on, counted from 1, fails.
    pub fn fail_at(&self, number: u64) {
        self.left.set(number);
    }

    // Counts a call, and fails where it is the one.
    fn meet(&self) -> io::Result<()> {
        let left = self.left.get();
        self.left.set(left.saturating_sub(1));
        if left == 1 {
            Err(io::Error::from(self.kind))
        } else {
            Ok(())
        }
    }
}

impl System for FakeSystem<'_> {
    type File = File;

    fn open(&self, how: &OpenOptions, name: &str) -> io::Result<File> {
        self.meet()?;
        self.rt.open(how, name)
    }

    fn read(&self, file: &mut File, into: &mut [u8]) -> io::Result<usize> {
        self.meet()?;
        self.rt.read(file, into)
    }

    fn write(&self, file: &mut File, piece: &[u8]) -> io::Result<usize> {
        self.meet()?;
        self.rt.write(file, &piece[..piece.len().min(PART)])
    }

    fn seek(&self, file: &mut File, at: u64) -> io::Result<u64> {
        self.meet()?;
        self.rt.seek(file, at)
    }

    fn sync(&self, file: &File) -> io::Result<()> {
        self.meet()?;
        self.rt.sync(file)
    }

    fn identity(&self, file: &File) -> io::Result<(u64, u64)> {
        self.meet()?;
        self.rt.identity(file)
    }

    fn identity_at(&self, name: &str) -> io::Result<(u64, u64)> {
        self.meet()?;
        self.rt.identity_at(name)
    }

    fn rename(&self, from: &str, to: &str) -> io::Result<()> {
        self.meet()?;
        self.rt.rename(from, to)
    }

    fn remove(&self, name: &str) -> io::Result<()> {
        self.meet()?;
        self.rt.remove(name)
    }
}
