//! Events. A replica is named by its number, A by 0.
use crate::list::ListOf;
use crate::value::Value;

/// A pair of a `set`.
#[derive(Clone, Copy, Debug, PartialEq, Eq)]
pub struct Pair {
    pub key: u32,
    pub value: Value,
}

/// Pairs.
pub type PairList = ListOf<Pair>;

/// Rows of the table.
pub type RowList = ListOf<Pair>;

/// The word that names a replica: its letter, or `@` for the primary of the store.
#[derive(Clone, Copy, Debug, PartialEq, Eq)]
pub enum Who {
    Letter(u8),
    Primary,
}

/// Where an event is to be cut short.
#[derive(Clone, Copy, Debug, PartialEq, Eq)]
pub enum Suffix {
    Whole,
    Stop { write: u32, mask: u64 },
    Fail { call: u32 },
}

/// One line of a script.
#[derive(Debug, Drop)]
pub enum Event {
    Begin {
        node: Who,
        suffix: Suffix,
    },
    Get {
        node: Who,
        txn: u64,
        key: u32,
        suffix: Suffix,
    },
    Put {
        node: Who,
        txn: u64,
        key: u32,
        value: Value,
        suffix: Suffix,
    },
    Del {
        node: Who,
        txn: u64,
        key: u32,
        suffix: Suffix,
    },
    Commit {
        node: Who,
        txn: u64,
        suffix: Suffix,
    },
    Rollback {
        node: Who,
        txn: u64,
        suffix: Suffix,
    },
    Set {
        node: Who,
        pairs: PairList,
        suffix: Suffix,
    },
    Trim {
        node: Who,
        page: u16,
        horizon: u64,
        suffix: Suffix,
    },
    Harden {
        node: Who,
        suffix: Suffix,
    },
    Ack {
        node: Who,
        lsn: u64,
        suffix: Suffix,
    },
    Send {
        node: Who,
        to: Who,
        suffix: Suffix,
    },
    Deliver {
        node: Who,
        to: Who,
        number: u16,
        suffix: Suffix,
    },
    Repeat {
        node: Who,
        to: Who,
        number: u16,
        suffix: Suffix,
    },
    Lose {
        node: Who,
        to: Who,
        number: u16,
        suffix: Suffix,
    },
    Apply {
        node: Who,
        stripe: u8,
        suffix: Suffix,
    },
    Raise {
        node: Who,
        stripe: u8,
        suffix: Suffix,
    },
    Redo {
        node: Who,
        suffix: Suffix,
    },
    Read {
        node: Who,
        session: u8,
        key: u32,
        suffix: Suffix,
    },
    Snap {
        node: Who,
        session: u8,
        suffix: Suffix,
    },
    View {
        node: Who,
        session: u8,
        key: u32,
        suffix: Suffix,
    },
    Close {
        node: Who,
        session: u8,
        suffix: Suffix,
    },
    Report {
        node: Who,
        suffix: Suffix,
    },
    Flush {
        node: Who,
        suffix: Suffix,
    },
    Crash {
        node: Who,
        suffix: Suffix,
    },
    Start {
        node: Who,
        suffix: Suffix,
    },
    Spoil {
        node: Who,
        page: u16,
        sector: u8,
        suffix: Suffix,
    },
    Unread {
        node: Who,
        page: u16,
        suffix: Suffix,
    },
    Ask {
        node: Who,
        page: u16,
        to: Who,
        suffix: Suffix,
    },
    Suspects {
        node: Who,
        suffix: Suffix,
    },
    Page {
        node: Who,
        page: u16,
        suffix: Suffix,
    },
    Sectors {
        node: Who,
        page: u16,
        suffix: Suffix,
    },
    Status {
        node: Who,
        suffix: Suffix,
    },
    Cut {
        node: Who,
        suffix: Suffix,
    },
    Mend {
        node: Who,
        suffix: Suffix,
    },
    Join {
        node: Who,
        suffix: Suffix,
    },
    Resume {
        node: Who,
        suffix: Suffix,
    },
    Sync {
        node: Who,
        to: Who,
        suffix: Suffix,
    },
    Timeout {
        node: Who,
        to: Who,
        suffix: Suffix,
    },
    Planned {
        node: Who,
        suffix: Suffix,
    },
    Auto {
        suffix: Suffix,
    },
    Force {
        node: Who,
        suffix: Suffix,
    },
    Finish {
        node: Who,
        suffix: Suffix,
    },
}

/// Events.
pub type EventList = ListOf<Event>;
