//! Why bytes are no record.
ghost use Rattle.std.specs.Prelude.{◌≡◌};
ghost use Rattle.ag_record.specs.declared.fault.RecordFault.TheVariants.{NoMemory};

use std::alloc::{AllocError, AllocFailed};

/// What is wrong with the bytes, in the order of trying.
#[derive(Clone, Copy, Debug, PartialEq, Eq)]
pub enum RecordFault {
    /// A byte is missing.
    Short,
    /// The first byte is no kind of record.
    BadKind,
    /// A value is longer than 64 bytes, or a list has no page or more than 2048.
    BadLength,
    /// A page is below 16 or above 2063.
    BadPage,
    /// A page is not above the one before.
    BadOrder,
    /// Memory was refused.
    NoMemory,
}

impl From<AllocError> for RecordFault {
    ghost from_gives = { λ _ e. e ≡ NoMemory };

    fn from(_e: AllocError) -> RecordFault {
        RecordFault::NoMemory
    }
}

impl<T: Drop> From<AllocFailed<T>> for RecordFault {
    ghost from_gives = { λ _ e. e ≡ NoMemory };

    fn from(_e: AllocFailed<T>) -> RecordFault {
        RecordFault::NoMemory
    }
}
