// The files of the disk. What they hold is not known to any proof.
ghost use Rattle.std.specs.Prelude.{◌≡◌, ◌≤◌, None, false, IsErrOf, IfOk};
ghost use Rattle.pth_outside.specs.Files.{Rose};

use crate::handles::{DiskErr, Handles};
use crate::system::System;
use pth_outside::{FileErr, Files};
use std::alloc::Global;

/// The files of the disk by their paths, with a count of the calls that failed.
#[derive(Drop)]
pub struct DiskFiles<'a, S: System> {
    handles: Handles<'a, S>,
    faults: u64,
}

impl<'a, S: System> DiskFiles<'a, S> {
    /// All the files that the program may reach.
    pub fn new(alloc: Global, system: &'a S) -> Self {
        Self {
            handles: Handles::new(alloc, system),
            faults: 0,
        }
    }
}

impl<S: System> Files for DiskFiles<'_, S> {
    ghost state = { λ f. record { told = None; faults = f.faults; sure = false } };

    fn read_at(&mut self, name: &str, at: u64, into: &mut [u8]) -> Result<usize, FileErr> {
        counted(self.handles.read_at(name, at, into), &mut self.faults)
    }

    fn create(&mut self, name: &str) -> Result<(), FileErr> {
        counted(self.handles.create(name), &mut self.faults)
    }

    fn append(&mut self, name: &str, piece: &[u8]) -> Result<(), FileErr> {
        counted(self.handles.append(name, piece), &mut self.faults)
    }

    // A sync of the folder that fails comes after the rename. An answer other than `Ok` promises that no file has changed
    // only where the files tell what they hold, and these tell nothing.
    fn publish(&mut self, from: &str, to: &str) -> Result<(), FileErr> {
        counted(self.handles.publish(from, to), &mut self.faults)
    }

    fn remove(&mut self, name: &str) -> Result<(), FileErr> {
        counted(self.handles.remove(name), &mut self.faults)
    }
}

// Counts a call that the system refused, and leaves out why.
fn counted<T>(answer: Result<T, DiskErr>, faults: &mut u64) -> Result<T, FileErr>
    ensures ok { IfOk result (λ value. answer ≡ Ok value) }
    ensures want { IsErrOf result FileErr.NoMemory → IsErrOf answer DiskErr.NoMemory }
    ensures risen { IsErrOf result FileErr.Failed → Rose faults.old faults.new }
    ensures later { faults.old ≤ faults.new }
{
    match answer {
        Ok(value) => Ok(value),
        Err(DiskErr::NoMemory) => Err(FileErr::NoMemory),
        Err(DiskErr::Failed) => {
            *faults = faults.saturating_add(1);
            Err(FileErr::Failed)
        }
    }
}

#[cfg(test)]
mod fake;
#[cfg(test)]
mod tests;
