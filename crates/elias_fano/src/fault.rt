// Why bytes spell no list.
ghost use Rattle.std.specs.Prelude.{◌≡◌};
ghost use Rattle.elias_fano.specs.declared.fault.ReadErr.TheVariants.{Form};
ghost use Rattle.elias_fano.specs.declared.fault.ReadErr.TheVariants as errors;

use bit_vector::NoMemory;
use std::alloc::{AllocError, AllocFailed};

/// Fewer bytes are left than a field takes.
pub const SHORT: u8 = 1;
/// A width is not the one that the values need.
pub const WIDTH: u8 = 2;
/// A bit behind the last is set.
pub const PADDING: u8 = 3;
/// A value is below the one before it.
pub const ORDER: u8 = 4;
/// There are not as many as the count says.
pub const COUNT: u8 = 5;
/// The last value is another.
pub const LAST: u8 = 6;

/// The first fault: the byte place of the field, and which fault.
#[derive(Clone, Copy, Debug, PartialEq, Eq)]
pub struct FormFault {
    pub at: u64,
    pub kind: u8,
}

/// Why a list could not be read.
#[derive(Clone, Copy, Debug, PartialEq, Eq)]
pub enum ReadErr {
    Form(FormFault),
    NoMemory,
}

impl From<FormFault> for ReadErr {
    ghost from_gives = { λ f e. e ≡ Form f };

    fn from(fault: FormFault) -> ReadErr {
        ReadErr::Form(fault)
    }
}

impl From<NoMemory> for ReadErr {
    ghost from_gives = { λ _ e. e ≡ errors.NoMemory };

    fn from(_e: NoMemory) -> ReadErr {
        ReadErr::NoMemory
    }
}

impl From<AllocError> for ReadErr {
    ghost from_gives = { λ _ e. e ≡ errors.NoMemory };

    fn from(_e: AllocError) -> ReadErr {
        ReadErr::NoMemory
    }
}

impl<T: Drop> From<AllocFailed<T>> for ReadErr {
    ghost from_gives = { λ _ e. e ≡ errors.NoMemory };

    fn from(_e: AllocFailed<T>) -> ReadErr {
        ReadErr::NoMemory
    }
}
