//! Log records, and logs.
use crate::list::ListOf;
use crate::value::Value;

/// Page numbers.
pub type PageList = ListOf<u16>;

/// One record of the log. A transaction's Commit or Abort lists the pages that its Puts and Dels touch.
#[derive(Clone, Debug, Drop)]
pub enum Record {
    Put { txn: u64, key: u32, value: Value },
    Del { txn: u64, key: u32 },
    Commit { txn: u64, pages: PageList },
    Abort { txn: u64, pages: PageList },
    /// Raises the horizon of a page to an LSN.
    Trim { page: u16, horizon: u64 },
    /// Starts a term.
    Term { term: u64 },
}

/// Records in order of LSN.
pub type RecordList = ListOf<Record>;

/// LSNs.
pub type LsnList = ListOf<u64>;

/// A log: its records, of which the first has LSN 1, and the LSN at which each block ends.
#[derive(Clone, Debug, Drop)]
pub struct Log {
    pub records: RecordList,
    pub ends: LsnList,
}
