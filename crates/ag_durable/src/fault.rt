//! Why a replica's data gives up.
ghost use Rattle.std.specs.Prelude.{◌≡◌};
ghost use Rattle.ag_durable.specs.declared.fault.DurableFault.TheVariants.{NoMemory};

use ag_model::value;
use std::alloc::AllocError;

/// Why a call gave up. Nothing is known then of what the disk keeps.
#[derive(Clone, Copy, Debug, PartialEq, Eq)]
pub enum DurableFault {
    /// The disk below failed. Its count of faults has risen.
    DiskFault,
    /// Memory was refused.
    NoMemory,
}

impl From<AllocError> for DurableFault {
    ghost from_gives = { λ _ e. e ≡ NoMemory };

    fn from(_: AllocError) -> DurableFault {
        DurableFault::NoMemory
    }
}

impl From<value::NoMemory> for DurableFault {
    ghost from_gives = { λ _ e. e ≡ NoMemory };

    fn from(_: value::NoMemory) -> DurableFault {
        DurableFault::NoMemory
    }
}
