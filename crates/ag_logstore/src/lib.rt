//! The log of a replica: hardened in memory, and kept on a disk.
#![tactic(auto)]

mod appending;
mod cutting;
mod fault;
mod growth;
mod hardened;
pub mod laws;
mod loading;
mod search;
mod sizes;
mod store;
mod writing;

pub use fault::LogFault;
pub use hardened::HardenedLog;
pub use sizes::{block_sectors_of, copy_of, records_size};
pub use store::{LogStore, load};
