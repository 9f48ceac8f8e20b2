//! Why a stripe doesn't answer.
ghost use Rattle.std.specs.Prelude.{◌≡◌};
ghost use Rattle.ag_stripe.specs.declared.fault.StripeFault.TheVariants.{NoMemory};

use std::alloc::{AllocError, AllocFailed};

/// Why a stripe doesn't answer. After Home, Unlawful or NoMemory it may only be taken back.
#[derive(Clone, Copy, Debug, PartialEq, Eq)]
pub enum StripeFault {
    /// The image of the page has a lost sector, or its marks differ.
    Bad { page: u16 },
    /// The page waits for its repair.
    Pending { page: u16 },
    /// The snapshot is below the horizon of the page. Both are LSNs.
    TooOld { snapshot: u64, horizon: u64 },
    /// The home of the images failed. Its count of faults has risen.
    Home,
    /// The sound image of the page is none that a log gives it.
    Unlawful { page: u16 },
    /// Memory was refused.
    NoMemory,
}

impl From<AllocError> for StripeFault {
    ghost from_gives = { λ _ e. e ≡ NoMemory };

    fn from(_e: AllocError) -> StripeFault {
        StripeFault::NoMemory
    }
}

impl<T: Drop> From<AllocFailed<T>> for StripeFault {
    ghost from_gives = { λ _ e. e ≡ NoMemory };

    fn from(_e: AllocFailed<T>) -> StripeFault {
        StripeFault::NoMemory
    }
}
