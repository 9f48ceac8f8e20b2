//! Why a version isn't put on a page.
ghost use Rattle.std.specs.Prelude.{◌≡◌};
ghost use Rattle.ag_version.specs.declared.fault.PutFault.TheVariants.{NoMemory};

use std::alloc::{AllocError, AllocFailed};

/// Why a version isn't put on a page. The page stays as it was.
#[derive(Clone, Copy, Debug, PartialEq, Eq)]
pub enum PutFault {
    /// The version needs more bytes than the page has free.
    PageFull { need: u32, free: u32 },
    /// Memory was refused.
    NoMemory,
}

impl From<AllocError> for PutFault {
    ghost from_gives = { λ _ e. e ≡ NoMemory };

    fn from(_e: AllocError) -> PutFault {
        PutFault::NoMemory
    }
}

impl<T: Drop> From<AllocFailed<T>> for PutFault {
    ghost from_gives = { λ _ e. e ≡ NoMemory };

    fn from(_e: AllocFailed<T>) -> PutFault {
        PutFault::NoMemory
    }
}
