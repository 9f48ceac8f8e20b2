//! Why a store answers with a fault.
ghost use Rattle.std.specs.Prelude.{◌≡◌, ◌⊎◌};
ghost use Rattle.ag_logstore.specs.declared.fault.LogFault.TheVariants.{NoMemory};

use ag_model::value;
use ag_outside::disk::DiskError;
use std::alloc::{AllocError, AllocFailed};

/// Why a log was not loaded, or a block not appended.
#[derive(Clone, Copy, Debug, PartialEq, Eq)]
pub enum LogFault {
    /// The block takes more sectors than are free.
    Full { need: u32, free: u32 },
    /// The disk failed. Its count of faults has risen.
    DiskFault,
    /// The store was closed by a fault of its disk.
    Closed,
    /// Memory was refused.
    NoMemory,
}

impl From<AllocError> for LogFault {
    ghost from_gives = { λ _ e. e ≡ NoMemory };

    fn from(_: AllocError) -> LogFault {
        LogFault::NoMemory
    }
}

impl<T: Drop> From<AllocFailed<T>> for LogFault {
    ghost from_gives = { λ _ e. e ≡ NoMemory };

    fn from(_: AllocFailed<T>) -> LogFault {
        LogFault::NoMemory
    }
}

impl From<value::NoMemory> for LogFault {
    ghost from_gives = { λ _ e. e ≡ NoMemory };

    fn from(_: value::NoMemory) -> LogFault {
        LogFault::NoMemory
    }
}

/// The fault of a disk's error.
pub(crate) fn fault_of(e: DiskError) -> LogFault
    ensures failed { result ≡ LogFault.DiskFault → e ≡ DiskError.Failed }
    ensures only { (result ≡ LogFault.DiskFault) ⊎ (result ≡ LogFault.NoMemory) }
{
    match e {
        DiskError::Failed => LogFault::DiskFault,
        DiskError::NoMemory => LogFault::NoMemory,
    }
}
