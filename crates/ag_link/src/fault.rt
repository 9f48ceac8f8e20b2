//! Why a link refuses.
ghost use Rattle.std.specs.Prelude.{◌≡◌};
ghost use Rattle.ag_link.specs.declared.fault.LinkFault.TheVariants.{NoMemory};

use std::alloc::{AllocError, AllocFailed};

/// Why a link refuses. It stays as it was.
#[derive(Clone, Copy, Debug, PartialEq, Eq)]
pub enum LinkFault {
    /// It holds 1,024 messages.
    LinkFull,
    /// No message has that number.
    NoSuchMessage,
    /// Memory was refused.
    NoMemory,
}

impl From<AllocError> for LinkFault {
    ghost from_gives = { λ _ e. e ≡ NoMemory };

    fn from(_e: AllocError) -> LinkFault {
        LinkFault::NoMemory
    }
}

impl<T: Drop> From<AllocFailed<T>> for LinkFault {
    ghost from_gives = { λ _ e. e ≡ NoMemory };

    fn from(_e: AllocFailed<T>) -> LinkFault {
        LinkFault::NoMemory
    }
}
