//! Why a replica gives up.
ghost use Rattle.std.specs.Prelude.{◌≡◌};
ghost use Rattle.ag_replica.specs.declared.fault.ReplicaFault.TheVariants.{NoMemory};
ghost use Rattle.ag_replica.specs.Faults.{replica_fault};

use ag_durable::DurableFault;
use ag_model::value;
use std::alloc::AllocError;

/// Why a replica gave up. Nothing is known then of what its disk keeps.
#[derive(Clone, Copy, Debug, PartialEq, Eq)]
pub enum ReplicaFault {
    /// The disk below failed. Its count of faults has risen.
    DiskFault,
    /// Memory was refused.
    NoMemory,
}

impl From<DurableFault> for ReplicaFault {
    ghost from_gives = { λ f e. e ≡ replica_fault f };

    fn from(fault: DurableFault) -> ReplicaFault {
        match fault {
            DurableFault::DiskFault => ReplicaFault::DiskFault,
            DurableFault::NoMemory => ReplicaFault::NoMemory,
        }
    }
}

impl From<AllocError> for ReplicaFault {
    ghost from_gives = { λ _ e. e ≡ NoMemory };

    fn from(_: AllocError) -> ReplicaFault {
        ReplicaFault::NoMemory
    }
}

impl From<value::NoMemory> for ReplicaFault {
    ghost from_gives = { λ _ e. e ≡ NoMemory };

    fn from(_: value::NoMemory) -> ReplicaFault {
        ReplicaFault::NoMemory
    }
}
