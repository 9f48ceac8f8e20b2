//! Why a suspect list answers with a fault.
ghost use Rattle.std.specs.Prelude.{◌≡◌, ◌⊎◌};
ghost use Rattle.ag_suspect.specs.declared.fault.SuspectFault.TheVariants.{NoMemory};

use ag_outside::disk::DiskError;
use std::alloc::{AllocError, AllocFailed};

/// Why a list was not loaded, or not changed.
#[derive(Clone, Copy, Debug, PartialEq, Eq)]
pub enum SuspectFault {
    /// 1,000 rows stand, and the page has none.
    NotNoted,
    /// The disk failed. Its count of faults has risen.
    DiskFault,
    /// Memory was refused.
    NoMemory,
}

impl From<AllocError> for SuspectFault {
    ghost from_gives = { λ _ e. e ≡ NoMemory };

    fn from(_: AllocError) -> SuspectFault {
        SuspectFault::NoMemory
    }
}

impl<T: Drop> From<AllocFailed<T>> for SuspectFault {
    ghost from_gives = { λ _ e. e ≡ NoMemory };

    fn from(_: AllocFailed<T>) -> SuspectFault {
        SuspectFault::NoMemory
    }
}

/// The fault of a disk's error.
pub(crate) fn fault_of(e: DiskError) -> SuspectFault
    ensures failed { result ≡ SuspectFault.DiskFault → e ≡ DiskError.Failed }
    ensures only { (result ≡ SuspectFault.DiskFault) ⊎ (result ≡ SuspectFault.NoMemory) }
{
    match e {
        DiskError::Failed => SuspectFault::DiskFault,
        DiskError::NoMemory => SuspectFault::NoMemory,
    }
}
