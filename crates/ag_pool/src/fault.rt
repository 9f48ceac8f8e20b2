//! Why a stripe isn't redone.
ghost use Rattle.std.specs.Prelude.{◌≡◌};
ghost use Rattle.ag_pool.specs.declared.fault.PoolFault.TheVariants.{NoMemory};

use ag_model::value;
use std::alloc::AllocError;

/// Why a stripe isn't redone. Nothing is known then of its pages.
#[derive(Clone, Copy, Debug, PartialEq, Eq)]
pub enum PoolFault {
    /// A record finds no room on the page.
    Full { page: u16 },
    /// Memory was refused.
    NoMemory,
}

impl From<AllocError> for PoolFault {
    ghost from_gives = { λ _ e. e ≡ NoMemory };

    fn from(_: AllocError) -> PoolFault {
        PoolFault::NoMemory
    }
}

impl From<value::NoMemory> for PoolFault {
    ghost from_gives = { λ _ e. e ≡ NoMemory };

    fn from(_: value::NoMemory) -> PoolFault {
        PoolFault::NoMemory
    }
}
