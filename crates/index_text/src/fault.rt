// Why bytes are no index.
ghost use Rattle.std.specs.Prelude.{◌≡◌};
ghost use Rattle.index_text.specs.declared.fault.IndexFault.TheVariants as faults;
ghost use Rattle.index_text.specs.Faults.{fault_of_list};

use pilot_codecs::{FormFault, NoMemory, ReadErr};
use std::alloc::{AllocError, AllocFailed};

/// The first fault of bytes that are no index, in the order in which they are looked for.
#[derive(Clone, Copy, Debug, PartialEq, Eq)]
pub enum IndexFault {
    /// There are fewer bytes than the fields take.
    Short,
    /// The first four bytes are others.
    Magic,
    /// The version is none of those that are read.
    Version { found: u8 },
    /// The last eight bytes are not the hash of all before them.
    Digest { kept: u64, counted: u64 },
    /// The number of a code or of the map is none.
    Encoding,
    /// The number at this place is out of its range.
    Field { at: u64 },
    /// The keys of the partitions add up to another sum.
    Count { kept: u64, sum: u64 },
    /// The spelling of a list is faulty.
    Form(FormFault),
    /// This bucket of this partition has a pilot that is too great.
    Pilot { part: u32, bucket: u64 },
    /// This entry of the free list of this partition is no value.
    Free { part: u32, place: u64 },
    /// Bytes are left from this place on.
    Long { at: u64 },
    /// There are more bytes than an index may have.
    Large,
    /// No fault of the bytes: memory ran out.
    NoMemory,
}

impl From<ReadErr> for IndexFault {
    ghost from_gives = { λ e f. f ≡ fault_of_list e };

    fn from(e: ReadErr) -> Self {
        match e {
            ReadErr::Form(fault) => IndexFault::Form(fault),
            ReadErr::NoMemory => IndexFault::NoMemory,
        }
    }
}

impl From<NoMemory> for IndexFault {
    ghost from_gives = { λ _ f. f ≡ faults.NoMemory };

    fn from(_e: NoMemory) -> Self {
        IndexFault::NoMemory
    }
}

impl From<AllocError> for IndexFault {
    ghost from_gives = { λ _ f. f ≡ faults.NoMemory };

    fn from(_e: AllocError) -> Self {
        IndexFault::NoMemory
    }
}

impl<T: Drop> From<AllocFailed<T>> for IndexFault {
    ghost from_gives = { λ _ f. f ≡ faults.NoMemory };

    fn from(_e: AllocFailed<T>) -> Self {
        IndexFault::NoMemory
    }
}
