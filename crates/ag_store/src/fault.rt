//! Why a store doesn't answer.
use ag_kept::KeptFault;

/// Why a row isn't answered.
#[derive(Clone, Copy, Debug, PartialEq, Eq)]
pub enum ReadFault {
    /// The snapshot is below the horizon of the page. Both are LSNs.
    TooOld { snapshot: u64, horizon: u64 },
    /// The disk below failed, or memory was refused.
    Gave { up: KeptFault },
}
