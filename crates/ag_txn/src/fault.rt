//! Why a call is refused.
ghost use Rattle.std.specs.Prelude.{◌≡◌};
ghost use Rattle.ag_txn.specs.declared.fault.TxnFault.TheVariants.{NoMemory};

use ag_model::value::NoMemory;
use std::alloc::{AllocError, AllocFailed};

/// Why a call is refused. It leaves all as it was. Numbers of bytes are `need` and `free`, all others but `txn` are LSNs.
#[derive(Clone, Copy, Debug, PartialEq, Eq)]
pub enum TxnFault {
    /// Another open transaction has an uncommitted version of the key.
    Locked { txn: u64 },
    /// The key was committed above the transaction's snapshot.
    Conflict { commit: u64, snapshot: u64 },
    /// The page has fewer bytes free than are needed.
    PageFull { need: u32, free: u32 },
    /// The buffer has fewer bytes free than are needed.
    BufferFull { need: u32, free: u32 },
    /// The horizon is above the limit.
    Held { horizon: u64, limit: u64 },
    /// No transaction number is left.
    Spent,
    /// There is nothing to do.
    Nothing,
    /// Memory was refused.
    NoMemory,
}

impl From<AllocError> for TxnFault {
    ghost from_gives = { λ _ e. e ≡ NoMemory };

    fn from(_e: AllocError) -> TxnFault {
        TxnFault::NoMemory
    }
}

impl<T: Drop> From<AllocFailed<T>> for TxnFault {
    ghost from_gives = { λ _ e. e ≡ NoMemory };

    fn from(_e: AllocFailed<T>) -> TxnFault {
        TxnFault::NoMemory
    }
}

impl From<NoMemory> for TxnFault {
    ghost from_gives = { λ _ e. e ≡ NoMemory };

    fn from(_e: NoMemory) -> TxnFault {
        TxnFault::NoMemory
    }
}
