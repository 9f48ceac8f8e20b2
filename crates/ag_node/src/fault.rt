//! Why a node gives up.
ghost use Rattle.std.specs.Prelude.{◌≡◌};
ghost use Rattle.ag_node.specs.declared.fault.NodeFault.TheVariants.{NoMemory};
ghost use Rattle.ag_node.specs.Faults.{node_fault};

use ag_kept::KeptFault;
use ag_model::value;
use std::alloc::AllocError;

/// Why a node gave up. Nothing more may be asked of it then but its disk.
#[derive(Clone, Copy, Debug, PartialEq, Eq)]
pub enum NodeFault {
    /// The disk below failed. Its count of faults has risen.
    DiskFault,
    /// Memory was refused.
    NoMemory,
}

impl From<AllocError> for NodeFault {
    ghost from_gives = { λ _ e. e ≡ NoMemory };

    fn from(_: AllocError) -> NodeFault {
        NodeFault::NoMemory
    }
}

impl From<value::NoMemory> for NodeFault {
    ghost from_gives = { λ _ e. e ≡ NoMemory };

    fn from(_: value::NoMemory) -> NodeFault {
        NodeFault::NoMemory
    }
}

impl From<KeptFault> for NodeFault {
    ghost from_gives = { λ fault e. e ≡ node_fault fault };

    fn from(fault: KeptFault) -> NodeFault {
        match fault {
            KeptFault::DiskFault => NodeFault::DiskFault,
            KeptFault::NoMemory => NodeFault::NoMemory,
        }
    }
}
