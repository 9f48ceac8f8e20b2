//! Payloads cut up into the sectors of a log block, and put together again.
#![tactic(auto)]

ghost use Rattle.std.specs.Prelude.{◌≡◌};
ghost use Rattle.ag_logblock.specs.declared.BlockFault.TheVariants.{NoMemory};

mod cutting;
mod joining;
pub mod laws;

pub use cutting::{cut_up, sectors_of};
pub use joining::put_together;
use std::alloc::AllocError;

/// One sector of the log.
pub type Sector = [u8; 512];

/// What all sectors of a block have in common, beside their count.
#[derive(Clone, Copy, Debug, PartialEq, Eq)]
pub struct Head {
    /// The term of the primary that made the block.
    pub term: u64,
    /// The incarnation of the replica that wrote it, at least 1.
    pub incarnation: u64,
    /// The LSN of the first record.
    pub first: u64,
}

/// Why sectors are no block.
#[derive(Clone, Copy, Debug, PartialEq, Eq)]
pub enum BlockFault {
    /// The first sector that doesn't fit where it is; how many sectors there are, where each fits but some are missing.
    NoBlock { sector: u32 },
    /// Memory was refused.
    NoMemory,
}

impl From<AllocError> for BlockFault {
    ghost from_gives = { λ _ e. e ≡ NoMemory };

    fn from(_e: AllocError) -> BlockFault {
        BlockFault::NoMemory
    }
}

/// The fields of a sector before its part of the payload.
#[derive(Clone, Copy, PartialEq, Eq)]
struct Header {
    head: Head,
    index: u8,
    count: u8,
    used: u16,
}
