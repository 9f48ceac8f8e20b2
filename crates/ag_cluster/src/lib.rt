//! What the store of the cluster holds, and how it moves.
#![tactic(auto)]

mod failover;
pub mod members;
mod synced;
#[cfg(test)]
mod tests;

pub use failover::{automatic, forced, planned, resume};
pub use synced::{ClusterFault, add_sync, remove_sync};
