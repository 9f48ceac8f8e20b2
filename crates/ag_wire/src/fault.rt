//! Why bytes are no message.
ghost use Rattle.std.specs.Prelude.{◌≡◌};
ghost use Rattle.ag_wire.specs.declared.fault.WireFault.TheVariants.{NoMemory};
ghost use Rattle.ag_wire.specs.Reading.{wire_fault};

use ag_record::RecordFault;
use std::alloc::{AllocError, AllocFailed};

/// What is wrong with the bytes: the first fault from the front.
#[derive(Clone, Copy, Debug, PartialEq, Eq)]
pub enum WireFault {
    /// A byte is missing.
    Short,
    /// The first byte is no kind of message.
    BadKind,
    /// The records of a block take no byte or more than 15,488.
    BadLength,
    /// A term or its LSN is not above the one before.
    BadOrder,
    /// The bytes of a block's records are no records.
    BadRecord,
    /// Bytes follow the message.
    Extra,
    /// Memory was refused.
    NoMemory,
}

impl From<AllocError> for WireFault {
    ghost from_gives = { λ _ e. e ≡ NoMemory };

    fn from(_e: AllocError) -> WireFault {
        WireFault::NoMemory
    }
}

impl<T: Drop> From<AllocFailed<T>> for WireFault {
    ghost from_gives = { λ _ e. e ≡ NoMemory };

    fn from(_e: AllocFailed<T>) -> WireFault {
        WireFault::NoMemory
    }
}

impl From<RecordFault> for WireFault {
    ghost from_gives = { λ fault e. e ≡ wire_fault fault };

    fn from(fault: RecordFault) -> WireFault {
        match fault {
            RecordFault::NoMemory => WireFault::NoMemory,
            _ => WireFault::BadRecord,
        }
    }
}
