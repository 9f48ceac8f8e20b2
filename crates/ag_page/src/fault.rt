//! Why an image is no page.
ghost use Rattle.std.specs.Prelude.{◌≡◌};
ghost use Rattle.ag_page.specs.declared.fault.PageFault.TheVariants.{NoMemory};

use std::alloc::{AllocError, AllocFailed};

/// Why no page is read from an image.
#[derive(Clone, Copy, Debug, PartialEq, Eq)]
pub enum PageFault {
    /// The bytes are no page.
    NotPage,
    /// Memory was refused.
    NoMemory,
}

impl From<AllocError> for PageFault {
    ghost from_gives = { λ _ e. e ≡ NoMemory };

    fn from(_e: AllocError) -> PageFault {
        PageFault::NoMemory
    }
}

impl<T: Drop> From<AllocFailed<T>> for PageFault {
    ghost from_gives = { λ _ e. e ≡ NoMemory };

    fn from(_e: AllocFailed<T>) -> PageFault {
        PageFault::NoMemory
    }
}
