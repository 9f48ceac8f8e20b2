//! What a key may hold, and a page's versions.
ghost use Rattle.std.specs.Prelude.{◌≡◌};
ghost use Rattle.ag_model.specs.declared.value.NoMemory.{NoMemory};

use crate::list::ListOf;
use std::alloc::{AllocError, AllocFailed};

/// A value of 0 to 64 bytes. The bytes from `len` on are zero.
#[derive(Clone, Copy, Debug, PartialEq, Eq)]
pub struct Value {
    pub len: u8,
    pub bytes: [u8; 64],
}

/// What a read finds.
#[derive(Clone, Copy, Debug, PartialEq, Eq)]
pub enum Row {
    Found(Value),
    Absent,
}

/// What a Put or a Del does to its key.
#[derive(Clone, Copy, Debug, PartialEq, Eq)]
pub enum Change {
    Put(Value),
    Del,
}

/// One version of a key on its page. The commit is 0 while it isn't committed.
#[derive(Clone, Copy, Debug, PartialEq, Eq)]
pub struct Version {
    pub lsn: u64,
    pub txn: u64,
    pub commit: u64,
    pub key: u32,
    pub change: Change,
}

/// Versions.
pub type VersionList = ListOf<Version>;

/// What a page holds.
#[derive(Clone, Debug, Drop)]
pub struct PageValue {
    pub page: u16,
    pub lsn: u64,
    pub horizon: u64,
    pub versions: VersionList,
}

/// Memory was refused.
#[derive(Clone, Copy, Debug, PartialEq, Eq)]
pub struct NoMemory;

impl From<AllocError> for NoMemory {
    ghost from_gives = { λ _ e. e ≡ record {} };

    fn from(_e: AllocError) -> NoMemory {
        NoMemory
    }
}

impl<T: Drop> From<AllocFailed<T>> for NoMemory {
    ghost from_gives = { λ _ e. e ≡ record {} };

    fn from(_e: AllocFailed<T>) -> NoMemory {
        NoMemory
    }
}

/// The snapshot is below the horizon of the page. Both are LSNs.
#[derive(Clone, Copy, Debug, PartialEq, Eq)]
pub struct TooOld {
    pub snapshot: u64,
    pub horizon: u64,
}
