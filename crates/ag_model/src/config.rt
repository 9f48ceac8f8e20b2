//! The head of a scenario, and what the store holds.
use crate::list::ListOf;

/// How a replica is waited for.
#[derive(Clone, Copy, Debug, PartialEq, Eq)]
pub enum Mode {
    Auto,
    Sync,
    Async,
}

/// Modes.
pub type ModeList = ListOf<Mode>;

/// The head of a scenario.
#[derive(Clone, Debug, Drop)]
pub struct Config {
    pub pages: u16,
    pub modes: ModeList,
    pub workers: u8,
    pub readers: u8,
}

/// What the store of the cluster holds. Bit i of a set is replica i.
#[derive(Clone, Copy, Debug, PartialEq, Eq)]
pub struct Register {
    pub term: u64,
    pub primary: u8,
    pub synced: u16,
    pub suspended: u16,
}

/// What a session has seen.
#[derive(Clone, Copy, Debug, PartialEq, Eq)]
pub struct Token {
    pub term: u64,
    pub lsn: u64,
}

/// What names one join of a replica: its incarnation, and its joins since its start.
#[derive(Clone, Copy, Debug, PartialEq, Eq)]
pub struct Ticket {
    pub incarnation: u64,
    pub joins: u32,
}

/// Where a term starts in a log.
#[derive(Clone, Copy, Debug, PartialEq, Eq)]
pub struct TermStart {
    pub term: u64,
    pub lsn: u64,
}

/// Term starts.
pub type TermList = ListOf<TermStart>;
