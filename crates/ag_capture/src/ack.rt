//! Why a commit may be confirmed, and why not.

/// How a commit is confirmed.
#[derive(Clone, Copy, Debug, PartialEq, Eq)]
pub enum Kind {
    /// The primary and each member of the synchronised set have hardened it.
    Sync,
    /// The primary has hardened it, and nobody is waited for.
    Local,
}

/// A replica that hasn't hardened an LSN: the primary itself, and else the least such member of the set.
#[derive(Clone, Copy, Debug, PartialEq, Eq)]
pub struct NotYet {
    pub lsn: u64,
    pub who: u8,
}
