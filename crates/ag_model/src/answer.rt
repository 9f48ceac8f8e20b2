//! Answers.
use crate::list::ListOf;
use crate::record::PageList;
use crate::value::{Value, VersionList};

/// What stands in a sector of a page: its mark, or nothing that can be read.
#[derive(Clone, Copy, Debug, PartialEq, Eq)]
pub enum Cell {
    Mark(u8),
    Lost,
}

/// The cells of an image.
pub type CellList = ListOf<Cell>;

/// One row of the suspect list. The kind is 1 for a lost sector and 3 for marks that differ.
#[derive(Clone, Copy, Debug, PartialEq, Eq)]
pub struct SuspectRow {
    pub page: u16,
    pub kind: u8,
    pub repaired: bool,
    pub count: u32,
}

/// Suspect rows.
pub type SuspectList = ListOf<SuspectRow>;

/// What a replica is.
#[derive(Clone, Copy, Debug, PartialEq, Eq)]
pub enum Role {
    Primary,
    Secondary,
}

/// Why an event was refused.
#[derive(Clone, Copy, Debug, PartialEq, Eq)]
pub enum Refusal {
    Down { node: u8 },
    NotPrimary { node: u8, primary: u8 },
    NotSecondary { node: u8 },
    NotReadable { state: u8 },
    WrongState { state: u8 },
    CutOff { node: u8 },
    Suspended { node: u8 },
    NotConnected { node: u8 },
    NoTxn { node: u8, txn: u64 },
    NoMessage { node: u8, to: u8 },
    LinkFull { node: u8, to: u8 },
    /// 1222: another transaction has the key.
    Locked { txn: u64 },
    /// 3960: the key was committed above the snapshot.
    Conflict { commit: u64, snapshot: u64 },
    PageFull { need: u64, free: u64 },
    BufferFull { need: u64, free: u64 },
    LogFull { need: u64, free: u64 },
    Held { horizon: u64, limit: u64 },
    NotYet { lsn: u64, node: u8 },
    Behind { front: u64, seen: u64 },
    OldTerm { term: u64, seen: u64 },
    TooOld { snapshot: u64, horizon: u64 },
    /// 823: a sector of the page is lost.
    Unreadable { page: u16 },
    /// 824: the marks of the page differ.
    Torn { page: u16 },
    /// 829: the page waits for a repair.
    Pending { page: u16 },
    NotNoted { page: u16 },
    Gap { expected: u64, first: u64 },
    Wait { applied: u64, asked: u64 },
    NotUndone { hardened: u64, undo: u64 },
    NotSynchronised { node: u8 },
    NoTarget,
    Unhardened { count: u64 },
    Spent,
    Nothing,
}

/// What an event is answered.
#[derive(Debug, Drop)]
pub enum Answer {
    Txn {
        txn: u64,
    },
    /// `row V` and `absent`, of a transaction.
    OwnRow {
        value: Value,
    },
    OwnAbsent,
    Lsn {
        lsn: u64,
    },
    Ended,
    Hardened {
        lsn: u64,
    },
    /// `sync L` and `local L`, of an acknowledgement.
    SyncAt {
        lsn: u64,
    },
    LocalAt {
        lsn: u64,
    },
    Sent {
        lsn: u64,
    },
    Lost,
    Applied {
        lsn: u64,
    },
    Raised {
        lsn: u64,
    },
    Front {
        lsn: u64,
    },
    /// `row F V` and `absent F`, of a session.
    Row {
        front: u64,
        value: Value,
    },
    Absent {
        front: u64,
    },
    Snap {
        front: u64,
    },
    Closed,
    Reported,
    Flushed {
        lsn: u64,
    },
    Crashed,
    Started {
        role: Role,
        term: u64,
        end: u64,
        front: u64,
    },
    Spoiled,
    Asked,
    Suspects {
        rows: SuspectList,
    },
    PageBad,
    Page {
        lsn: u64,
        horizon: u64,
        versions: VersionList,
    },
    Sectors {
        cells: CellList,
    },
    Status {
        role: Role,
        state: u8,
        term: u64,
        end: u64,
        front: u64,
    },
    Cut,
    Mended,
    Joined {
        term: u64,
        primary: u8,
    },
    Resumed,
    Synchronised,
    TimedOut,
    Primary {
        node: u8,
        term: u64,
        lsn: u64,
    },
    Reverted {
        lsn: u64,
    },
    Hello {
        fork: u64,
    },
    State {
        state: u8,
        end: u64,
    },
    Known {
        lsn: u64,
    },
    Refused {
        page: u16,
    },
    Gave {
        page: u16,
        lsn: u64,
    },
    Installed {
        page: u16,
        lsn: u64,
    },
    Holding {
        page: u16,
        lsn: u64,
    },
    NoPage {
        page: u16,
    },
    Stopped {
        write: u32,
        step: u32,
        torn: PageList,
    },
    DeviceFailed {
        node: u8,
        step: u32,
    },
    No(Refusal),
}
