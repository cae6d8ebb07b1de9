// The files of the disk that were read and written last, kept open from one call to the next.
ghost use Rattle.std.specs.Prelude.{◌≡◌, ◌≤◌, length, IfOk, IsErrOf};
ghost use Rattle.disk_files.specs.declared.handles.DiskErr.TheVariants.{Failed, NoMemory};

use crate::pieces::write_whole;
use crate::system::System;
use std::alloc::{AllocError, Global};
use std::fs::OpenOptions;
use std::io;
use std::io::ErrorKind;

// Why a call on the disk gave up.
#[derive(Clone, Copy, Debug, PartialEq, Eq)]
pub(crate) enum DiskErr {
    // The system refused.
    Failed,
    NoMemory,
}

impl From<io::Error> for DiskErr {
    ghost from_gives = { λ _ e. e ≡ Failed };

    fn from(_: io::Error) -> Self {
        DiskErr::Failed
    }
}

impl From<AllocError> for DiskErr {
    ghost from_gives = { λ _ e. e ≡ NoMemory };

    fn from(_: AllocError) -> Self {
        DiskErr::NoMemory
    }
}

// An open file, its name, and the place that its reads have reached.
#[derive(Drop)]
struct Handle<H> {
    name: String,
    place: u64,
    file: H,
}

// The file that was read last and the one that was written last.
#[derive(Drop)]
pub(crate) struct Handles<'a, S: System> {
    system: &'a S,
    alloc: Global,
    reading: Option<Handle<S::File>>,
    writing: Option<Handle<S::File>>,
}

impl<'a, S: System> Handles<'a, S> {
    // No file is open yet.
    pub(crate) fn new(alloc: Global, system: &'a S) -> Self {
        Self {
            system,
            alloc,
            reading: None,
            writing: None,
        }
    }

    // Reads once. The first place of a file opens its name anew, any other goes on with the file that was read last, and
    // a failure lets go of it.
    pub(crate) fn read_at(&mut self, name: &str, at: u64, into: &mut [u8]) -> Result<usize, DiskErr>
        ensures bound { IfOk result (λ count. count ≤ length into.old) }
        ensures kept { IsErrOf result DiskErr.NoMemory → into.new ≡ into.old }
    {
        let mut handle = self.take_reading(name, at)?;
        let count = read_from(self.system, &mut handle, at, into)?;
        self.reading = Some(handle);
        Ok(count)
    }

    // Makes a new file in the place of what has the name. A failure may come after that was taken away.
    pub(crate) fn create(&mut self, name: &str) -> Result<(), DiskErr> {
        self.let_go(name);
        let own_name = String::from_str(self.alloc, name)?;
        take_away(self.system, name)?;
        let handle = Handle::open(
            self.system,
            own_name,
            OpenOptions::new().append(true).create_new(true),
        )?;
        self.writing = Some(handle);
        Ok(())
    }

    // Puts the whole piece at the end of the file that was written last, where it has this name, or else of the name's.
    pub(crate) fn append(&mut self, name: &str, piece: &[u8]) -> Result<(), DiskErr> {
        let mut handle = self.take_writing(name)?;
        let written = write_whole(piece, |part| self.system.write(&mut handle.file, part));
        self.writing = Some(handle);
        Ok(written?)
    }

    // Puts a file whose bytes are on the disk in the place of another. A failure may come after that, where only the
    // folder could not be synced.
    pub(crate) fn publish(&mut self, from: &str, to: &str) -> Result<(), DiskErr> {
        let handle = self.take_writing(from)?;
        self.let_go(from);
        self.let_go(to);
        Ok(put_in_place(self.system, &handle.file, from, to)?)
    }

    // Takes a file away.
    pub(crate) fn remove(&mut self, name: &str) -> Result<(), DiskErr> {
        self.let_go(name);
        Ok(self.system.remove(name)?)
    }

    // The file that a read goes on with: that of the last read, or at its first place the name's.
    fn take_reading(&mut self, name: &str, at: u64) -> Result<Handle<S::File>, DiskErr> {
        match self.reading.take() {
            Some(handle) if at > 0 && handle.has_name(name) => Ok(handle),
            _ => self.open(name, OpenOptions::new().read(true)),
        }
    }

    // The file that is written on: that of the last write, or the name's.
    fn take_writing(&mut self, name: &str) -> Result<Handle<S::File>, DiskErr> {
        match self.writing.take() {
            Some(handle) if handle.has_name(name) => Ok(handle),
            _ => self.open(name, OpenOptions::new().append(true)),
        }
    }

    fn open(&self, name: &str, how: &OpenOptions) -> Result<Handle<S::File>, DiskErr> {
        let own_name = String::from_str(self.alloc, name)?;
        Ok(Handle::open(self.system, own_name, how)?)
    }

    // Closes what is open by a name.
    fn let_go(&mut self, name: &str) {
        if matches!(&self.reading, Some(handle) if handle.has_name(name)) {
            self.reading = None;
        }
        if matches!(&self.writing, Some(handle) if handle.has_name(name)) {
            self.writing = None;
        }
    }
}

impl<H> Handle<H> {
    fn open<S: System<File = H>>(system: &S, name: String, how: &OpenOptions) -> io::Result<Self> {
        let file = system.open(how, name.as_str())?;
        Ok(Self {
            name,
            place: 0,
            file,
        })
    }

    fn has_name(&self, name: &str) -> bool {
        self.name.as_str() == name
    }
}

// Reads once from a place on, with a seek where another place was reached, and again where a signal came between.
fn read_from<S: System>(
    system: &S,
    handle: &mut Handle<S::File>,
    at: u64,
    into: &mut [u8],
) -> io::Result<usize>
    ensures { IfOk result (λ count. count ≤ length into.old) }
{
    if at != handle.place {
        handle.place = system.seek(&mut handle.file, at)?;
    }
    let count = read_once(system, &mut handle.file, into)?;
    handle.place = handle.place.saturating_add(count as u64);
    Ok(count)
}

fn read_once<S: System>(system: &S, file: &mut S::File, into: &mut [u8]) -> io::Result<usize>
    ensures { IfOk result (λ count. count ≤ length into.old) }
{
    for _ in 0..u64::MAX {
        match system.read(file, into) {
            Ok(count) => return Ok(count),
            Err(e) if e.kind() == ErrorKind::Interrupted => {}
            Err(e) => return Err(e),
        }
    }
    Err(io::Error::from(ErrorKind::Interrupted))
}

// Takes away what has a name, and nothing where the name is free.
fn take_away<S: System>(system: &S, name: &str) -> io::Result<()> {
    match system.remove(name) {
        Err(e) if e.kind() != ErrorKind::NotFound => Err(e),
        _ => Ok(()),
    }
}

// Puts a written file in the place of another, its bytes on the disk first. The folder is opened before the rename, so that
// all but its sync is refused while the old file stands.
fn put_in_place<S: System>(system: &S, file: &S::File, from: &str, to: &str) -> io::Result<()> {
    system.sync(file)?;
    let folder = system.open(OpenOptions::new().read(true), folder_of(to))?;
    if !is_at(system, file, from)? {
        return Err(io::Error::from(ErrorKind::NotFound));
    }
    system.rename(from, to)?;
    system.sync(&folder)
}

// Whether a name is that of this open file, and not of a link to it or of another file that took its place.
fn is_at<S: System>(system: &S, file: &S::File, name: &str) -> io::Result<bool> {
    let (open, named) = (system.identity(file)?, system.identity_at(name)?);
    Ok(open.0 == named.0 && open.1 == named.1)
}

// The folder that a name stands in.
fn folder_of(name: &str) -> &str {
    match name.rsplit_once('/') {
        Some(("", _)) => "/",
        Some((folder, _)) => folder,
        None => ".",
    }
}
