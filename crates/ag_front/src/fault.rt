//! What the calls of a front answer beside their results.
use ag_model::message::Block;
use ag_model::value::TooOld;

/// Another pass has, or had, the slot, or its turn word is at its end.
#[derive(Clone, Copy, Debug, PartialEq, Eq)]
pub struct Busy;

/// Why a block wasn't added to the log. Both numbers are LSNs: where the block starts, and where the log ends.
#[derive(Clone, Copy, Debug, PartialEq, Eq)]
pub enum DispatchFault {
    NotNext { start: u64, end: u64 },
    NoMemory,
}

/// Why a row wasn't read.
#[derive(Clone, Copy, Debug, PartialEq, Eq)]
pub enum FrontReadFault {
    Busy,
    TooOld(TooOld),
}

/// The block after an LSN, or that the log ends there.
#[derive(Debug, Drop)]
pub enum Fetched {
    Next(Block),
    UpToDate,
}
