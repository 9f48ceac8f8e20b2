//! Why a group gives up.
ghost use Rattle.std.specs.Prelude.{◌≡◌};
ghost use Rattle.ag_group.specs.declared.fault.StepFault.TheVariants.{NoMemory};
ghost use Rattle.ag_group.specs.Faults.{fault_of};

use ag_model::value;
use ag_node::fault::NodeFault;
use std::alloc::AllocError;

/// Why a group gave up. Nothing more may be asked of it then.
#[derive(Clone, Copy, Debug, PartialEq, Eq)]
pub enum StepFault {
    /// Memory was refused.
    NoMemory,
    /// The disk of this replica failed. Its count of faults has risen.
    DiskFault { node: u8 },
    /// The disk of this replica doesn't tell its sectors. This never comes, since each disk keeps to the model of a disk.
    Unlawful { node: u8 },
}

impl From<AllocError> for StepFault {
    ghost from_gives = { λ _ e. e ≡ NoMemory };

    fn from(_: AllocError) -> StepFault {
        StepFault::NoMemory
    }
}

impl From<value::NoMemory> for StepFault {
    ghost from_gives = { λ _ e. e ≡ NoMemory };

    fn from(_: value::NoMemory) -> StepFault {
        StepFault::NoMemory
    }
}

impl StepFault {
    /// Why a group gave up, where this node of it did.
    pub(crate) fn of_node(node: u8, fault: NodeFault) -> StepFault
        ensures { result ≡ fault_of node fault }
    {
        match fault {
            NodeFault::DiskFault => StepFault::DiskFault { node },
            NodeFault::NoMemory => StepFault::NoMemory,
        }
    }
}
