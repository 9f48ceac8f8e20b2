//! Why a store answers with a fault.
ghost use Rattle.std.specs.Prelude.{◌≡◌};
ghost use Rattle.ag_kept.specs.declared.fault.KeptFault.TheVariants.{NoMemory};

use ag_model::value;
use std::alloc::AllocError;

/// Why a call of a store gave up. Nothing is known then of what it keeps.
#[derive(Clone, Copy, Debug, PartialEq, Eq)]
pub enum KeptFault {
    /// The disk below failed. Its count of faults has risen.
    DiskFault,
    /// Memory was refused.
    NoMemory,
}

impl From<AllocError> for KeptFault {
    ghost from_gives = { λ _ e. e ≡ NoMemory };

    fn from(_: AllocError) -> KeptFault {
        KeptFault::NoMemory
    }
}

impl From<value::NoMemory> for KeptFault {
    ghost from_gives = { λ _ e. e ≡ NoMemory };

    fn from(_: value::NoMemory) -> KeptFault {
        KeptFault::NoMemory
    }
}
