// The calls on the system that the files of the disk make.
ghost use Rattle.std.specs.Prelude.{◌≤◌, length, IfOk};

use std::fs::{File, OpenOptions};
use std::io::{Read, Seek, SeekFrom, Write};
use std::os::fd::{AsRawFd, RawFd};
use std::os::unix::fs::MetadataExt;
use std::{fs, io};

// The descriptors up to this one are those of the standard streams.
const LAST_STANDARD: RawFd = 2;

/// A system with files, so that a test can stand in for it. Each call may be refused.
pub trait System {
    /// An open file or folder.
    type File: Drop;

    /// Opens a file, by a descriptor above the standard ones.
    fn open(&self, how: &OpenOptions, name: &str) -> io::Result<Self::File>;

    /// Reads once, from the place that the file has reached.
    fn read(&self, file: &mut Self::File, into: &mut [u8]) -> io::Result<usize>
        ensures { IfOk result (λ count. count ≤ length into.old) };

    /// Writes the front of a piece, and answers how long that is.
    fn write(&self, file: &mut Self::File, piece: &[u8]) -> io::Result<usize>
        ensures { IfOk result (λ count. count ≤ length piece.now) };

    /// Goes to a place of a file, and answers it.
    fn seek(&self, file: &mut Self::File, at: u64) -> io::Result<u64>;

    /// Waits until the disk has what was written to a file, or what changed in a folder.
    fn sync(&self, file: &Self::File) -> io::Result<()>;

    /// The device of an open file, and its number there.
    fn identity(&self, file: &Self::File) -> io::Result<(u64, u64)>;

    /// The device of what has a name, and its number there. A link has its own.
    fn identity_at(&self, name: &str) -> io::Result<(u64, u64)>;

    /// Gives a file another name, and takes away what had that.
    fn rename(&self, from: &str, to: &str) -> io::Result<()>;

    /// Takes away what has a name. A link is taken away itself, and not what it points to.
    fn remove(&self, name: &str) -> io::Result<()>;
}

impl System for HostRuntime {
    type File = File;

    // A program that is started without a standard stream would else print into the file that gets its descriptor.
    fn open(&self, how: &OpenOptions, name: &str) -> io::Result<File> {
        let file = how.open(self, name)?;
        if file.as_raw_fd() > LAST_STANDARD {
            Ok(file)
        } else {
            file.try_clone()
        }
    }

    fn read(&self, file: &mut File, into: &mut [u8]) -> io::Result<usize> {
        file.read(into)
    }

    fn write(&self, file: &mut File, piece: &[u8]) -> io::Result<usize> {
        file.write(piece)
    }

    fn seek(&self, file: &mut File, at: u64) -> io::Result<u64> {
        file.seek(SeekFrom::Start(at))
    }

    fn sync(&self, file: &File) -> io::Result<()> {
        file.sync_all()
    }

    fn identity(&self, file: &File) -> io::Result<(u64, u64)> {
        let open = file.metadata()?;
        Ok((open.dev(), open.ino()))
    }

    fn identity_at(&self, name: &str) -> io::Result<(u64, u64)> {
        let named = fs::symlink_metadata(self, name)?;
        Ok((named.dev(), named.ino()))
    }

    fn rename(&self, from: &str, to: &str) -> io::Result<()> {
        fs::rename(self, from, to)
    }

    fn remove(&self, name: &str) -> io::Result<()> {
        fs::remove_file(self, name)
    }
}
