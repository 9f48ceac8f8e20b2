//! Why a script can't be read.
ghost use Rattle.std.specs.Prelude.{◌≡◌};
ghost use Rattle.ag_script.specs.declared.fault.ScriptFault.TheVariants.{NoMemory};

use std::alloc::AllocError;

/// Why a script can't be read.
#[derive(Clone, Copy, Debug, PartialEq, Eq)]
pub enum ScriptFault {
    /// The number of the first line that is neither skipped nor an event line.
    BadLine { line: u32 },
    /// There are more event lines than a scenario may have.
    Events,
    /// Memory was refused.
    NoMemory,
}

impl From<AllocError> for ScriptFault {
    ghost from_gives = { λ _ e. e ≡ NoMemory };

    fn from(_e: AllocError) -> ScriptFault {
        ScriptFault::NoMemory
    }
}
